//! What a call tells beside its status.

ghost use Rattle.std.specs.Prelude.{◌≡◌};
ghost use Rattle.cli_calls.specs.Told.{Names};

/// What a call tells beside its status. Any numbers may stand here before.
#[repr(C)]
#[derive(Drop)]
pub struct Found {
    /// How many bytes or entries there are.
    pub length: usize,
    /// The number that is named, if one is: a place, counted from 0, or what else the call says.
    pub place: u64,
    /// 1 where a number is named, else 0.
    pub named: u32,
}

impl Found {
    /// Tells a length, and a number if there is one.
    pub fn tell(&mut self, length: usize, place: Option<u64>)
        ensures length { self.new.length ≡ length }
        ensures place { Names self.new.named self.new.place place }
    {
        self.length = length;
        match place {
            Some(place) => {
                self.place = place;
                self.named = 1;
            }
            None => {
                self.place = 0;
                self.named = 0;
            }
        }
    }
}
