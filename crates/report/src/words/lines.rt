// The lines that tell of a file: what it means, or why it is refused.
ghost use Rattle.std.specs.Prelude.{◌≡◌, drop, IfOk, IfSome, Some, string_bytes};
ghost use Rattle.catalogue.specs.Catalogue.{module_in, state_in};
ghost use Rattle.report.specs.Text.{state_line, module_lines, catalogue_lines, fault_line, refused_line, long_line};

use super::{MovesText, TickText, UrgentText};
use catalogue::Catalogue;
use std::alloc::{AllocError, Global};
use std::fmt;

// The line of a state.
#[derive(Drop)]
struct StateLine<'a, C> {
    catalogue: &'a C,
    part: usize,
    code: u32,
}

impl<C: Catalogue> fmt::Display for StateLine<'_, C> {
    ghost output = { λ s. Some (state_line s.part s.code (state_in (C.Catalogue.meaning s.catalogue.now) s.part s.code)) };

    fn fmt<W: fmt::Write>(&self, f: &mut fmt::Formatter<W>) -> fmt::Result {
        let part = self.part;
        let code = self.code;
        let tick = TickText(self.catalogue.tick(part, code));
        let urgent = UrgentText(self.catalogue.urgent(part, code));
        let moves = MovesText {
            catalogue: self.catalogue,
            part,
            code,
        };
        writeln!(
            f,
            "{part}.{code}: tick {tick}; urgent{urgent}; moves{moves}"
        )
    }
}

// The lines of a module: its own, and those of its states.
#[derive(Drop)]
struct ModuleLines<'a, C> {
    catalogue: &'a C,
    part: usize,
}

impl<C: Catalogue> fmt::Display for ModuleLines<'_, C> {
    ghost output = { λ m. Some (module_lines m.part (module_in (C.Catalogue.meaning m.catalogue.now) m.part)) };

    fn fmt<W: fmt::Write>(&self, f: &mut fmt::Formatter<W>) -> fmt::Result {
        let part = self.part;
        let codes = self.catalogue.codes(part).unwrap_or(0);
        let start = self.catalogue.start(part).unwrap_or(0);
        writeln!(f, "module {part}: codes {codes}, start {start}")?;
        for code in 0..codes {
            let line = StateLine {
                catalogue: self.catalogue,
                part,
                code,
            };
            write!(f, "{line}")?;
        }
        Ok(())
    }
}

// What the modules of a catalogue mean from one on, under the name of the file that they come from. A file that stands behind others in
// a catalogue is shown so, with the numbers that its modules have there.
#[derive(Drop)]
pub struct CatalogueText<'a, C> {
    pub name: &'a str,
    pub catalogue: &'a C,
    pub first: usize,
}

impl<C: Catalogue> fmt::Display for CatalogueText<'_, C> {
    ghost output = { λ t. Some (catalogue_lines t.name.now t.first (drop t.first (C.Catalogue.meaning t.catalogue.now))) };

    fn fmt<W: fmt::Write>(&self, f: &mut fmt::Formatter<W>) -> fmt::Result {
        let name = self.name;
        let end = self.catalogue.modules();
        let count = end.saturating_sub(self.first);
        writeln!(f, "{name}: modules {count}")?;
        for part in self.first..end {
            let lines = ModuleLines {
                catalogue: self.catalogue,
                part,
            };
            write!(f, "{lines}")?;
        }
        Ok(())
    }
}

// What a file means, under its name, as one text. The programs keep no such text, and print a `CatalogueText`.
pub fn catalogue_text<C: Catalogue>(
    heap: Global,
    name: &str,
    catalogue: &C,
) -> Result<String, AllocError>
    ensures { IfOk result (λ s. string_bytes s ≡ catalogue_lines name.now 0 (C.Catalogue.meaning catalogue.now)) }
{
    let text = CatalogueText {
        name,
        catalogue,
        first: 0,
    };
    let out = format!(in heap; "{text}")?;
    Ok(out)
}

// Why a file is refused, under its name: the number of the refusal, and its place in the file. It stays as callers know it; the
// programs print a fault as `output` tells it.
pub fn fault_text(heap: Global, name: &str, number: u8, place: usize) -> Result<String, AllocError>
    ensures { IfOk result (λ s. string_bytes s ≡ fault_line name.now number place) }
{
    format!(in heap; "{name} {number} {place}\n")
}

// Why a file is refused, under its name, by what prints as the reason.
pub fn refused_text<E: fmt::Display>(
    heap: Global,
    name: &str,
    why: &E,
) -> Result<String, AllocError>
    ensures { IfOk result (λ s. IfSome (E.output why.now) (λ t. string_bytes s ≡ refused_line name.now t)) }
{
    format!(in heap; "{name} {why}\n")
}

// That a file is longer than a file may be, under its name. A line without a value needs no type that prints it.
pub fn long_text(heap: Global, name: &str) -> Result<String, AllocError>
    ensures { IfOk result (λ s. string_bytes s ≡ long_line name.now) }
{
    format!(in heap; "{name} long\n")
}
