//! The rule by which lines are drawn.
ghost use Rattle.std.specs.Prelude.{◌≡◌, ◌<◌};
ghost use Rattle.store_gen.specs.Rule.{IsReady, IsSmall, advanced, change_of, changed, drawn, first, grant_change, grant_place};
ghost use Rattle.store_gen.specs.Rule.{has_granted, home_of, move_change, with_grant, with_home};

use crate::change::Change;

/// What the next line follows from.
#[derive(Drop)]
pub(crate) struct Generator {
    /// The number that is multiplied before each line.
    pub(crate) number: u64,
    /// The folders that the files t0 to t7 are in.
    pub(crate) homes: [u8; 8],
    /// Whether the grants stand: those of the first holder on each of the eight folders, then those of the next.
    pub(crate) grants: [bool; 32],
}

impl Generator {
    /// Before the first line.
    #[tactic(auto, unfolding(crate::specs::Rule::first))]
    pub(crate) fn new(seed: u64) -> Self
        ensures start { result ≡ first seed }
        ensures ready { IsReady result }
    {
        Generator {
            number: seed,
            homes: [0, 1, 2, 3, 4, 5, 6, 7],
            grants: [false; 32],
        }
    }

    /// Draws the next line.
    pub(crate) fn draw(&mut self) -> Change
        requires { IsReady self.old }
        ensures change { result ≡ change_of (advanced self.old) }
        ensures small { IsSmall result }
        ensures state { self.new ≡ drawn self.old }
        ensures ready { IsReady self.new }
    {
        self.advance();
        let change = self.change();
        self.apply(change);
        change
    }

    fn advance(&mut self)
        requires { IsReady self.old }
        ensures state { self.new ≡ advanced self.old }
        ensures ready { IsReady self.new }
    {
        self.number = self
            .number
            .wrapping_mul(6_364_136_223_846_793_005)
            .wrapping_add(1_442_695_040_888_963_407);
    }

    /// What the number asks for.
    #[tactic(auto, unfolding(crate::specs::Rule::change_of))]
    fn change(&self) -> Change
        requires { IsReady self.now }
        ensures change { result ≡ change_of self.now }
        ensures small { IsSmall result }
    {
        let bits = self.number / (1 << 32);
        let folder = (bits / 4 % 8) as u8;
        let other = (bits / 32 % 8) as u8;
        match bits % 4 {
            0 | 1 => Change::Write {
                folder,
                file: other,
                byte: (bits / 1024 % 256) as u8,
            },
            2 => self.grant_change((bits / 256 % 4) as u8, folder),
            _ => self.move_change(folder, other),
        }
    }

    fn grant_change(&self, who: u8, folder: u8) -> Change
        requires ready { IsReady self.now }
        requires who { who < 4 }
        requires folder { folder < 8 }
        ensures { result ≡ grant_change (has_granted self.now who folder) who folder }
    {
        if self.grants[place_of(who, folder)] {
            Change::Revoke { who, folder }
        } else {
            Change::Grant { who, folder }
        }
    }

    fn move_change(&self, file: u8, other: u8) -> Change
        requires ready { IsReady self.now }
        requires file { file < 8 }
        requires other { other < 8 }
        ensures { result ≡ move_change file (home_of self.now file) other }
    {
        let from = self.homes[usize::from(file)];
        Change::Move {
            file,
            from,
            into: (from + 1 + other % 7) % 8,
        }
    }

    fn apply(&mut self, change: Change)
        requires ready { IsReady self.old }
        requires small { IsSmall change }
        ensures state { self.new ≡ changed self.old change }
        ensures ready { IsReady self.new }
    {
        match change {
            Change::Write { .. } => {}
            Change::Grant { who, folder } => self.set_grant(who, folder, true),
            Change::Revoke { who, folder } => self.set_grant(who, folder, false),
            Change::Move { file, into, .. } => self.set_home(file, into),
        }
    }

    fn set_grant(&mut self, who: u8, folder: u8, stands: bool)
        requires ready { IsReady self.old }
        requires who { who < 4 }
        requires folder { folder < 8 }
        ensures state { self.new ≡ with_grant self.old who folder stands }
        ensures ready { IsReady self.new }
    {
        self.grants[place_of(who, folder)] = stands;
    }

    fn set_home(&mut self, file: u8, into: u8)
        requires ready { IsReady self.old }
        requires file { file < 8 }
        requires into { into < 8 }
        ensures state { self.new ≡ with_home self.old file into }
        ensures ready { IsReady self.new }
    {
        self.homes[usize::from(file)] = into;
    }
}

/// Where the grant stands among the grants.
fn place_of(who: u8, folder: u8) -> usize
    requires who { who < 4 }
    requires folder { folder < 8 }
    ensures place { result ≡ grant_place who folder }
    ensures within { result < 32 }
{
    usize::from(who) * 8 + usize::from(folder)
}
