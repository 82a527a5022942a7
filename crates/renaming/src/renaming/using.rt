// What a renaming makes of an action and of a set of actions.
ghost use Rattle.std.specs.Prelude.{◌≡◌, ◌≤◌, ◌↔◌, ℤ, unsigned_abs, IfSome};
ghost use Rattle.action.specs.Action.{last_port};
ghost use Rattle.action.specs.Sets.{◌∋◌};
ghost use Rattle.renaming.specs.Renaming.{renamed, image, sent};

use super::Renaming;
use action::ActionSet;

impl Renaming {
    // What a port is sent to, if the number is one.
    fn sent(self, port: u8) -> Option<i8>
        ensures value { result ≡ sent self.entries port }
        ensures near { IfSome result (λ a. unsigned_abs a ≤ last_port) }
    {
        let place = usize::from(port).checked_sub(1)?;
        self.entries.get(place).copied()
    }

    // What the ports 1, 2, .. are sent to.
    pub fn entries(&self) -> &[i8]
        ensures { result.now ≡ self.now.entries }
    {
        &self.entries
    }

    // What an action becomes. A number that is no action becomes the internal event, as the rule of renamings has it.
    pub fn apply(self, action: i8) -> i8
        ensures { result ≡ renamed self.entries action }
    {
        let to = self.sent(action.unsigned_abs()).unwrap_or(0);
        if action < 0 { -to } else { to }
    }

    // What a set becomes: the set of what its actions become. A loop, since a chain that ends in a set would be no shorter.
    pub fn image(self, set: ActionSet) -> ActionSet
        ensures value { result ≡ image self.entries set }
        ensures means { (a : ℤ) → (result ∋ a) ↔ ((b : ℤ) × (set ∋ b) × (renamed self.entries b ≡ a)) }
    {
        let mut out = ActionSet::empty();
        for action in set.iter() {
            out.insert(self.apply(action));
        }
        out
    }
}
