// A renaming that was taken: what each port is sent to.
ghost use Rattle.std.specs.Prelude.{◌≡◌, true};
ghost use Rattle.renaming.specs.Renaming.{full};

use action::LAST_PORT;

mod making;
mod using;

#[derive(Clone, Copy)]
pub struct Renaming {
    // the actions that the ports 1, 2, .. are sent to
    entries: [i8; LAST_PORT as usize],
    ghost full: { full entries ≡ true },
}
