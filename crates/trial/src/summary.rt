// What is worked out of each place when a module is tried.
ghost use Rattle.std.specs.Prelude.{◌≡◌, get_or};
ghost use Rattle.trial.specs.Summaries.{unknown, summary_by};

use rows::Place;

// Followed through no place nothing is known, which is the default.
#[derive(Clone, Copy, Debug, Default, PartialEq, Eq)]
pub struct Summary {
    // a walk from the place through waits, sums and names ends; the rounds work out the other two beside it in any case
    pub guarded: bool,
    // its depth, 16 where it is more, as the rules cut it
    pub depth: u8,
    // its number of moves, 65 where it is more, as the rules cut it
    pub moves: u8,
}

impl Summary {
    // The summary that is kept of a place, or the default where there is none.
    fn kept(summaries: &[Summary], place: u16) -> Summary
        ensures { result ≡ get_or summaries.now place unknown }
    {
        summaries.get(place as usize).copied().unwrap_or_default()
    }

    // The summary of a place, from those of the places that it leads to.
    pub(super) fn of(place: Place, summaries: &[Summary]) -> Summary
        ensures { result ≡ summary_by place (λ j. get_or summaries.now j unknown) }
    {
        match place {
            Place::Nil => Summary {
                guarded: true,
                ..Summary::default()
            },
            Place::Act(_, _) => Summary {
                guarded: true,
                moves: 1,
                ..Summary::default()
            },
            Place::Wait(j) => {
                let next = Summary::kept(summaries, j);
                Summary {
                    depth: next.depth.saturating_add(1).min(16),
                    ..next
                }
            }
            Place::Sum(l, r) => {
                let left = Summary::kept(summaries, l);
                let right = Summary::kept(summaries, r);
                Summary {
                    guarded: left.guarded && right.guarded,
                    depth: left.depth.max(right.depth),
                    moves: left.moves.saturating_add(right.moves).min(65),
                }
            }
            Place::Name(j) => Summary::kept(summaries, j),
        }
    }
}
