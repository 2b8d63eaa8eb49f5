//! Groups of 16 bits, one behind another.

ghost use Rattle.std.specs.Prelude.{◌≡◌, IfSome};
ghost use Rattle.networks.specs.Grammar.{halves};
ghost use Rattle.networks.specs.Groups.{AreFew, filled_number, no_groups, whole_number, with_group, with_groups};

/// Groups that were read, at most eight: the number that they make, the first of them highest, and how many they are.
#[derive(Clone, Copy)]
pub(crate) struct Groups {
    pub(crate) number: u128,
    pub(crate) count: u32,
}

impl Groups {
    /// No groups.
    pub(crate) fn none() -> Groups
        ensures value { result ≡ no_groups }
        ensures few { AreFew result }
    {
        Groups {
            number: 0,
            count: 0,
        }
    }

    /// One group more, if there are fewer than eight.
    pub(crate) fn push(self, group: u16) -> Option<Groups>
        requires { AreFew self }
        ensures value { result ≡ with_group self group }
        ensures few { IfSome result AreFew }
    {
        if self.count >= 8 {
            return None;
        }
        Some(Groups {
            number: self.number * 65536 + u128::from(group),
            count: self.count + 1,
        })
    }

    /// Two groups more, which are the halves of a number, if there are six at most.
    pub(crate) fn push_halves(self, number: u32) -> Option<Groups>
        requires { AreFew self }
        ensures value { result ≡ with_groups self (halves number) }
        ensures few { IfSome result AreFew }
    {
        let groups = self.push((number / 65536) as u16)?;
        groups.push((number % 65536) as u16)
    }

    /// The number of eight groups.
    pub(crate) fn whole(self) -> Option<u128>
        ensures { result ≡ whole_number self }
    {
        if self.count == 8 {
            Some(self.number)
        } else {
            None
        }
    }

    /// The number of eight groups: these, groups of zeros, of which there is one at least, and those behind.
    pub(crate) fn fill(self, behind: Groups) -> Option<u128>
        requires before { AreFew self }
        requires behind { AreFew behind }
        ensures { result ≡ filled_number self behind }
    {
        if self.count + behind.count > 7 {
            return None;
        }
        if self.count == 0 {
            return Some(behind.number);
        }
        Some((self.number << (128 - 16 * self.count)) + behind.number)
    }
}
