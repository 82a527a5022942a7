// The fields of a table, tried in order: each function tells the first fault of its part. Nothing is stored, so a table is
// refused without any memory.
ghost use Rattle.std.specs.Prelude.{◌≡◌, ◌+◌, ◌*◌, ◌<◌, ◌≤◌, length};
ghost use Rattle.std.specs.List.{list_any};
ghost use Rattle.table_format.specs.Numbers.{byte, pair, byte_action};
ghost use Rattle.table_format.specs.Taking.{◌▹◌, moves_fault, state_length_fault, leads_outside, state_fields_fault, state_fault, states_fault, module_length_fault, module_head_fault, module_fault, modules_fault, head_fault, fault};
ghost use Rattle.table_format.specs.Told.{Told, Gives, Finds, Passes};
ghost use Rattle.table_format.specs.Law.{LawOf};
ghost use Rattle.table_format.specs.Worked.{Worked};
ghost use Rattle.table_format.specs.Reading.{after, marks_internal};
ghost use Rattle.action.specs.Action.{is_action as action_test};

use super::fault::TableFault;
use super::module::Module;
use super::number::{action_of, after, pair_at};
use super::record::StateRecord;
use action::is_action;

// The limits of a table, which the format has of its own beside those of a catalogue.
const MOST_TABLE_MODULES: usize = 64;

const MOST_TABLE_STATES: usize = 4096;

const MOST_TABLE_MOVES: usize = 64;

// Whether a byte holds an action.
fn is_action_byte(byte: u8) -> bool
    ensures { result ≡ action_test (byte_action byte) }
{
    is_action(action_of(byte))
}

// The moves of a state, in a module of so many states.
fn try_moves(state: StateRecord, codes: usize) -> Result<(), TableFault>
    ensures { Told (moves_fault state.entry.bytes.now codes (byte state.entry.bytes.now (state.entry.at + 4)) (state.entry.at + 5)) result }
{
    for (i, [action, mark, high, low]) in state.moves().iter().enumerate() {
        let k = state.at + 5 + 4 * i;
        if !is_action_byte(*action) {
            return Err(TableFault::NotAnAction(k));
        }
        if *mark > 1 {
            return Err(TableFault::NotAMark(k + 1));
        }
        if u16::from_be_bytes([*high, *low]) as usize >= codes {
            return Err(TableFault::NotAState(k + 2));
        }
    }
    Ok(())
}

// Whether a move is internal and marked urgent.
fn marks_internal(entry: &[u8; 4]) -> bool
    ensures { result ≡ marks_internal entry.now }
{
    let [action, mark, ..] = entry;
    *mark == 1 && *action == 0
}

// Whether some move is internal and marked urgent.
fn internal_marked(moves: &[[u8; 4]]) -> bool
    ensures { result ≡ list_any marks_internal moves.now }
{
    moves.iter().any(marks_internal)
}

// Whether a tick leads to no state, in a module of so many states.
fn leads_outside(tick: Option<u16>, codes: usize) -> bool
    ensures { result ≡ leads_outside tick codes }
{
    tick.is_some_and(|code| code as usize >= codes)
}

// The fields of a state, in a module of so many states.
fn try_state_fields(state: StateRecord, codes: usize) -> Result<(), TableFault>
    ensures { Told (state_fields_fault state.entry.bytes.now codes state.entry.at) result }
{
    let tick = state.tick();
    if leads_outside(tick, codes) {
        return Err(TableFault::NotAState(state.at + 2));
    }
    let moves = state.moves();
    if moves.len() > MOST_TABLE_MOVES {
        return Err(TableFault::TooManyMoves(state.at + 4));
    }
    try_moves(state, codes)?;
    if tick.is_some() == internal_marked(moves) {
        return Err(TableFault::WrongTick(state.at + 2));
    }
    Ok(())
}

impl<'a> Module<'a> {
    // The length of the state at s; returns its record.
    fn try_state_length(self, s: usize) -> Result<StateRecord<'a>, TableFault>
        ensures { Finds (state_length_fault self.entry.bytes.now self.entry.end s) (λ r. (r.bytes.now ≡ self.entry.bytes.now) × (r.at ≡ s)) result }
    {
        let length = pair_at(&self.bytes[..self.end], s).ok_or(TableFault::PastEnd(s))? as usize;
        if length < 3 || length > self.end - s - 2 {
            return Err(TableFault::PastEnd(s));
        }
        if length != 3 + 4 * self.bytes[s + 4] as usize {
            return Err(TableFault::WrongStateLength(s));
        }
        Ok(StateRecord {
            bytes: self.bytes,
            at: s,
        })
    }

    // The state at s; returns the offset behind it.
    fn try_state(self, s: usize) -> Result<usize, TableFault>
        ensures { Gives (state_fault self.entry.bytes.now self.entry.codes self.entry.end s) (after self.entry.bytes.now s) result }
    {
        let state = self.try_state_length(s)?;
        try_state_fields(state, self.codes)?;
        Ok(s + 5 + 4 * state.moves().len())
    }

    // All states; returns the offset behind the last.
    fn try_states(self) -> Result<usize, TableFault>
        ensures { Passes (states_fault self.entry.bytes.now self.entry.codes self.entry.end) self.entry.codes (self.entry.at + 6) result }
    {
        (0..self.codes).try_fold(self.at + 6, |s, _| self.try_state(s))
    }
}

// The length of the module at m, its state count and its start.
fn try_module_head(bytes: &[u8], m: usize) -> Result<Module<'_>, TableFault>
    ensures { Finds (module_length_fault bytes.now m ▹ module_head_fault bytes.now m) (λ r. (r.bytes.now ≡ bytes.now) × (r.at ≡ m)) result }
{
    let end = after(bytes, m)
        .filter(|end| *end <= bytes.len())
        .ok_or(TableFault::PastEnd(m))?;
    let module = &bytes[..end];
    let codes = pair_at(module, m + 2).ok_or(TableFault::PastEnd(m + 2))? as usize;
    if codes < 1 || codes > MOST_TABLE_STATES {
        return Err(TableFault::WrongStateCount(m + 2));
    }
    let start = pair_at(module, m + 4).ok_or(TableFault::PastEnd(m + 4))? as usize;
    if start >= codes {
        return Err(TableFault::NotAState(m + 4));
    }
    Ok(Module {
        bytes,
        at: m,
        codes,
        end,
    })
}

// The module at m; returns the offset behind it.
fn try_module(bytes: &[u8], m: usize) -> Result<usize, TableFault>
    ensures { Gives (module_fault bytes.now m) (after bytes.now m) result }
{
    let module = try_module_head(bytes, m)?;
    let rest = module.try_states()?;
    if rest < module.end {
        return Err(TableFault::LeftOver(rest));
    }
    Ok(module.end)
}

// The version and the module count, which is returned.
fn try_head(bytes: &[u8]) -> Result<usize, TableFault>
    ensures { Gives (head_fault bytes.now) (pair bytes.now 1) result }
{
    if bytes.first() != Some(&1) {
        return Err(TableFault::NotVersionOne);
    }
    let count = pair_at(bytes, 1).ok_or(TableFault::PastEnd(1))? as usize;
    if count > MOST_TABLE_MODULES {
        return Err(TableFault::TooManyModules);
    }
    Ok(count)
}

// So many modules; returns the offset behind the last.
fn try_modules(bytes: &[u8], count: usize) -> Result<usize, TableFault>
    ensures { Passes (modules_fault bytes.now) count 3 result }
{
    (0..count).try_fold(3, |m, _| try_module(bytes, m))
}

// Tells the fault of a table, if it has one.
#[tactic(auto, using(crate::proofs::Worked::worked))]
pub fn try_table(bytes: &[u8]) -> Result<(), TableFault>
    ensures told { Told (fault bytes.now) result }
    ensures law { LawOf bytes.now }
    ensures worked { Worked }
{
    let count = try_head(bytes)?;
    let behind = try_modules(bytes, count)?;
    if behind < bytes.len() {
        return Err(TableFault::LeftOver(behind));
    }
    Ok(())
}
