//! Two banks as one.
ghost use Rattle.std.specs.Prelude.{◌≡◌};
ghost use Rattle.bank.specs.Lanes.{beside};
ghost use Rattle.bank.specs.Beside.{beside_shaped, SideTold};

use crate::{Bank, BankFault, LANES};

/// Two banks as one: the left one's lanes and then the right one's, of which the first 8 count.
#[derive(Drop)]
pub struct Pair<L: Bank, R: Bank> {
    left: L,
    right: R,
}

/// The bank of a pair that has a lane, and the lane's number there.
#[derive(Clone, Copy)]
enum Side {
    Left(usize),
    Right(usize),
}

impl<L: Bank, R: Bank> Pair<L, R> {
    /// The two banks side by side.
    pub fn new(left: L, right: R) -> Self
        ensures left { result.left ≡ left }
        ensures right { result.right ≡ right }
    {
        Pair { left, right }
    }

    /// The bank that has this lane of the pair.
    fn side(&self, lane: usize) -> Result<Side, BankFault>
        ensures { SideTold (L.Bank.lanes self.now.left) (R.Bank.lanes self.now.right) lane result }
    {
        let split = self.left.count();
        if lane >= self.count() {
            Err(BankFault::NoSuchRegister)
        } else if lane < split {
            Ok(Side::Left(lane))
        } else {
            Ok(Side::Right(lane - split))
        }
    }
}

impl<L: Bank, R: Bank> Bank for Pair<L, R> {
    ghost lanes = { λ p. beside (L.Bank.lanes p.left) (R.Bank.lanes p.right) };

    ghost shape = { λ s. beside_shaped _ _ (L.Bank.shape s.left) (R.Bank.shape s.right) };

    #[tactic(auto, using(crate::specs::Beside::length_beside))]
    fn count(&self) -> usize {
        (self.left.count() + self.right.count()).min(LANES)
    }

    #[tactic(auto, using(crate::specs::Beside::beside_cleared))]
    fn clear(&mut self) {
        self.left.clear();
        self.right.clear();
    }

    fn take(&mut self, lane: usize, byte: u8) -> Result<(), BankFault> {
        match self.side(lane)? {
            Side::Left(lane) => self.left.take(lane, byte),
            Side::Right(lane) => self.right.take(lane, byte),
        }
    }

    fn read(&self, lane: usize, place: usize) -> Result<u8, BankFault> {
        match self.side(lane)? {
            Side::Left(lane) => self.left.read(lane, place),
            Side::Right(lane) => self.right.read(lane, place),
        }
    }

    fn set(&mut self, lane: usize, place: usize, byte: u8) -> Result<(), BankFault> {
        match self.side(lane)? {
            Side::Left(lane) => self.left.set(lane, place, byte),
            Side::Right(lane) => self.right.set(lane, place, byte),
        }
    }
}
