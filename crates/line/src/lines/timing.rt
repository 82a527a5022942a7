// What time does in a line.
ghost use Rattle.std.specs.Prelude.{◌≡◌, min, not, ◌&&◌, length, ℤ, IfOk, nat_lt, is_some};
ghost use Rattle.std.specs.List.{list_all, zip};
ghost use Rattle.line.specs.declared.lines.Slot.{Slot};
ghost use Rattle.action.specs.Sets.{has};
ghost use Rattle.catalogue.specs.Catalogue.{module_in, state_in, codes as codes_of};
ghost use Rattle.line_rules.specs.Line.{hides};
ghost use Rattle.line_rules.specs.Time.{gathers, stands, time_answer, Tells};
ghost use Rattle.line_rules.specs.Cases.{Worked};
ghost use Rattle.line.specs.Meaning.{in_use, line_of};

use super::Line;
use action::{ActionSet, LAST_PORT};
use catalogue::Catalogue;
use line_rules::{TimeAnswer, TimeFault};

// Whether a module has a code.
fn has_code<C: Catalogue>(catalogue: &C, part: usize, code: u32) -> bool
    ensures { result ≡ nat_lt code (codes_of (module_in (C.Catalogue.meaning catalogue.now) part)) }
{
    catalogue.codes(part).is_some_and(|codes| code < codes)
}

// The catalogue and the state stay parameters: a struct of them and the line would be one more type, which `time` alone makes.
impl Line {
    // Whether the catalogue has the module of every slot.
    fn is_known<C: Catalogue>(&self, catalogue: &C) -> bool
        ensures { result ≡ list_all (λ (x : Slot). nat_lt x.holds (length (C.Catalogue.meaning catalogue.now))) (in_use self.now) }
    {
        let modules = catalogue.modules();
        self.held().iter().all(|slot| slot.holds < modules)
    }

    // Whether each code is one of its slot's module.
    fn has_codes<C: Catalogue>(&self, catalogue: &C, state: &[u32]) -> bool
        ensures { result ≡ list_all (λ p. nat_lt p.1 (codes_of (module_in (C.Catalogue.meaning catalogue.now) p.0.holds))) (zip (in_use self.now) state.now) }
    {
        self.held()
            .iter()
            .zip(state)
            .all(|(slot, code)| has_code(catalogue, slot.holds, *code))
    }

    // Whether a list of codes is a state of the line.
    fn stands<C: Catalogue>(&self, catalogue: &C, state: &[u32]) -> bool
        ensures { result ≡ stands (C.Catalogue.meaning catalogue.now) (line_of self.now) state.now }
    {
        state.len() == self.count && self.has_codes(catalogue, state)
    }

    // Whether every slot that has a code ticks.
    fn all_tick<C: Catalogue>(&self, catalogue: &C, state: &[u32]) -> bool
        ensures { result ≡ list_all (λ p. is_some (state_in (C.Catalogue.meaning catalogue.now) p.0.holds p.1).tick) (zip (in_use self.now) state.now) }
    {
        self.held()
            .iter()
            .zip(state)
            .all(|(slot, code)| catalogue.tick(slot.holds, *code).is_some())
    }

    // What the slots that have codes urge, and the internal event where two different slots hold opposite actions. A slot
    // is held against those before it, so that the two actions of a port never meet within one slot.
    fn gathered<C: Catalogue>(&self, catalogue: &C, state: &[u32]) -> ActionSet
        ensures { (a : ℤ) → has result a ≡ gathers (C.Catalogue.meaning catalogue.now) (line_of self.now) state.now (min self.now.count (length state.now)) a }
    {
        let mut all = ActionSet::empty();
        for (slot, code) in self.held().iter().zip(state) {
            let here = slot.renaming.image(catalogue.urgent(slot.holds, *code));
            if all.meets_opposites(here) {
                all.insert(0);
            }
            all = all.union(here);
        }
        all
    }

    // Whether an action is that of a hidden port.
    fn hides(&self, action: i8) -> bool
        ensures { result ≡ hides (line_of self.now) action }
    {
        let port = action.unsigned_abs();
        port <= LAST_PORT as u8 && self.hidden.contains(port as i8)
    }

    // The actions of a set that are not hidden.
    fn shown(&self, set: ActionSet) -> ActionSet
        ensures { (a : ℤ) → has result a ≡ (not (hides (line_of self.now) a) && has set a) }
    {
        let mut out = ActionSet::empty();
        // a loop, since a fold that inserts each action into a set says no more than this, and in more words
        for action in set.iter() {
            if !self.hides(action) {
                out.insert(action);
            }
        }
        out
    }

    // Whether the line ticks in a state, and which actions are urgent in it. The state has a code for each slot.
    pub fn time<C: Catalogue>(&self, catalogue: &C, state: &[u32]) -> Result<TimeAnswer, TimeFault>
        ensures answer { result ≡ time_answer (C.Catalogue.meaning catalogue.now) (line_of self.now) state.now }
        ensures tells { IfOk result (λ v. Tells (C.Catalogue.meaning catalogue.now) (line_of self.now) state.now v) }
        ensures worked { Worked }
    {
        if !self.is_known(catalogue) {
            return Err(TimeFault::UnknownModule);
        }
        if !self.stands(catalogue, state) {
            return Err(TimeFault::NoState);
        }
        let urgent = self.shown(self.gathered(catalogue, state));
        let ticks = !urgent.contains(0) && self.all_tick(catalogue, state);
        Ok(TimeAnswer { ticks, urgent })
    }
}
