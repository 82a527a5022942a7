// The comparison of two modules. Rows of pairs are found from the pair of starts on, and looked up through an index; then their
// ranks are lowered, sweep by sweep, until they are those of the rounds.
ghost use Rattle.std.specs.Prelude.{◌≡◌, length, take, MatchResult};
ghost use Rattle.catalogue.specs.Catalogue.{module_in};
ghost use Rattle.pair_table.specs.Tables.{answer, table_after, room};
ghost use Rattle.pair_table.specs.Laws.{Judges, Refuses, Ordered};
ghost use Rattle.pair_table.specs.Cases.{Worked};

use crate::filled::Filled;
use crate::index::{Index, spread};
use crate::modules::Modules;
use crate::moves::PairMoves;
use catalogue::Catalogue;
use pair_table::{CompareFault, Compared, PairRow};

// Compares a new module with an old one in a table of pairs: how many pairs there are, and the rank of the pair of starts,
// which is 0 exactly when the new module is never slower than the old one.
pub fn compare<C: Catalogue>(
    catalogue: &C,
    new: usize,
    old: usize,
    table: &mut [PairRow],
) -> Result<Compared, CompareFault>
    ensures answer { result ≡ answer (C.Catalogue.meaning catalogue.now) new old (length table.old) }
    ensures table { table.new ≡ table_after (C.Catalogue.meaning catalogue.now) new old table.old }
    ensures judges { MatchResult result (λ v. Judges (module_in (C.Catalogue.meaning catalogue.now) new) (module_in (C.Catalogue.meaning catalogue.now) old) v (take v.pairs table.new)) (λ e. Refuses (C.Catalogue.meaning catalogue.now) new old (take (room (length table.old)) table.new) e) }
    ensures ordered { Ordered (C.Catalogue.meaning catalogue.now) }
    ensures worked { Worked }
{
    let q = catalogue.start(old).ok_or(CompareFault::UnknownOld)?;
    let p = catalogue.start(new).ok_or(CompareFault::UnknownNew)?;
    let modules = Modules::of(catalogue, new, old);
    let mut moves = PairMoves::none();
    let news = catalogue.codes(new).unwrap_or(0);
    let olds = catalogue.codes(old).unwrap_or(0);
    let mut index = Index::empty(spread(news, olds));
    let mut filled = Filled::none(table, &mut index);
    filled.admit(p, q)?;
    filled.explore(&modules, &mut moves)?;
    filled.settle(&modules, &mut moves);
    Ok(Compared {
        pairs: filled.count,
        rank: filled.rows[0].rank,
    })
}
