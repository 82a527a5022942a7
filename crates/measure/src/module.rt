// Modules as a maker writes them, and the bytes of their table.
use std::alloc::{AllocError, Global};

#[derive(Clone, Copy, Debug, Default, PartialEq, Eq)]
pub struct Step {
    pub action: i8,
    pub urgent: bool,
    pub target: u16,
}

// The moves of each state. The module starts in state 0, and each state ticks to itself.
#[derive(Drop)]
pub struct Module {
    states: Vec<Vec<Step>>,
}

impl Module {
    pub fn new(heap: Global) -> Module {
        Module {
            states: Vec::new(heap),
        }
    }

    // Adds a state with these moves.
    pub fn push(&mut self, heap: Global, moves: &[Step]) -> Result<(), AllocError> {
        self.states.push(moves.to_vec(heap)?)?;
        Ok(())
    }

    // The bytes of the module, but for the length in front of them.
    fn bytes(&self, heap: Global) -> anyhow::Result<Vec<u8>> {
        let mut bytes = Vec::new(heap);
        push_number(&mut bytes, self.states.len())?;
        push_number(&mut bytes, 0)?;
        for (code, moves) in self.states.iter().enumerate() {
            push_state(&mut bytes, code, moves)?;
        }
        Ok(bytes)
    }
}

// Adds a number of two bytes.
fn push_number(bytes: &mut Vec<u8>, number: usize) -> anyhow::Result<()> {
    bytes.extend_from_slice(&u16::try_from(number)?.to_be_bytes())?;
    Ok(())
}

// Adds the record of a state that ticks to itself.
fn push_state(bytes: &mut Vec<u8>, code: usize, moves: &[Step]) -> anyhow::Result<()> {
    push_number(bytes, 3 + 4 * moves.len())?;
    push_number(bytes, code)?;
    bytes.push(u8::try_from(moves.len())?)?;
    for step in moves {
        bytes.extend_from_slice(&step.action.to_be_bytes())?;
        bytes.push(u8::from(step.urgent))?;
        bytes.extend_from_slice(&step.target.to_be_bytes())?;
    }
    Ok(())
}

// The bytes of a table of these modules.
pub fn table_bytes(heap: Global, modules: &[Module]) -> anyhow::Result<Vec<u8>> {
    let mut bytes = vec![in heap; 1u8]?;
    push_number(&mut bytes, modules.len())?;
    for module in modules {
        let rest = module.bytes(heap)?;
        push_number(&mut bytes, rest.len())?;
        bytes.extend_from_slice(&rest)?;
    }
    Ok(bytes)
}
