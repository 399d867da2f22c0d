//! The box of an open pass handle.
ghost use Rattle.std.specs.Prelude.{◌≡◌, None};
ghost use Rattle.c_answers.specs.Ran.{Ran, misuse_of};
ghost use Rattle.percpu_gate_c.specs.PassCalls.{held_by, slot_misuse, take_misuse, get_misuse, put_misuse, word_misuse, TryGot, LiveTryGot, Got, HasPut, ReadFront, LookedForDead, LookedForZero, ReadWord};

use c_answers::{DrawnNumber, Misuse};
use percpu_gate::{Gate, HELD_LIMIT, Pass, Put, Tried};
use std::marker::Model;
use std::sync::Arc;

/// The guarded words of each gate.
pub const WORDS: usize = 8;

/// A pass with its gate, and the gate's unique number.
///
/// 128 unused bytes before and after what calls write keep the boxes of different threads from sharing 128 bytes.
#[derive(Drop)]
#[repr(C)]
pub struct OpenPass {
    before: [u64; 8],
    gate: Arc<Gate<WORDS>>,
    number: DrawnNumber,
    pass: Pass<WORDS>,
    after: [u64; 8],
}

impl Model for OpenPass {
    ghost use Rattle.std.specs.Prelude.{◌≡◌};
    ghost use Rattle.std.specs.Arc.{arc_value};
    ghost use Rattle.percpu_gate_c.specs.Opened.{PassOpened};

    ghost Value = { PassOpened };

    ghost view = { λ p. record { number = p.number; pass = p.pass } };

    ghost invariant = { λ p. p.pass.gate ≡ arc_value p.gate };
}

impl OpenPass {
    /// A pass of this gate.
    pub fn new(gate: Arc<Gate<WORDS>>, number: DrawnNumber, pass: Pass<WORDS>) -> OpenPass
        requires own { pass.gate ≡ gate.value }
        ensures { result ≡ record { number = number; pass = pass } }
    {
        OpenPass {
            before: [0; 8],
            gate,
            number,
            pass,
            after: [0; 8],
        }
    }

    /// The misuse of a slot that the gate doesn't have.
    fn refuse_slot(&self, slot: u32) -> Result<(), Misuse>
        ensures { misuse_of result ≡ slot_misuse slot self.now None }
    {
        if slot < self.gate.slots() {
            Ok(())
        } else {
            Err(Misuse::Slot)
        }
    }

    fn refuse_take(&self, slot: u32) -> Result<(), Misuse>
        ensures { misuse_of result ≡ take_misuse slot self.now }
    {
        self.refuse_slot(slot)?;
        if self.pass.held() < HELD_LIMIT {
            Ok(())
        } else {
            Err(Misuse::HeldFull)
        }
    }

    /// Takes a reference unless the gate has reached zero. Refuses with Slot or HeldFull.
    pub fn try_get(&mut self, slot: u32) -> Result<Tried, Misuse>
        ensures { Ran (take_misuse slot self.old) (TryGot slot) self.old self.new result }
    {
        self.refuse_take(slot)?;
        Ok(self.pass.try_get(&self.gate, slot))
    }

    /// Takes a reference unless the gate was killed. Refuses with Slot or HeldFull.
    pub fn try_get_live(&mut self, slot: u32) -> Result<Tried, Misuse>
        ensures { Ran (take_misuse slot self.old) (LiveTryGot slot) self.old self.new result }
    {
        self.refuse_take(slot)?;
        Ok(self.pass.try_get_live(&self.gate, slot))
    }

    /// Takes `n` more references. Refuses with Slot, NotHeld, Amount or HeldFull.
    pub fn get(&mut self, slot: u32, n: u32) -> Result<(), Misuse>
        ensures { Ran (get_misuse slot n self.old) (Got slot n) self.old self.new result }
    {
        self.refuse_slot(slot)?;
        let held = self.pass.held();
        if held == 0 {
            return Err(Misuse::NotHeld);
        }
        if n == 0 {
            return Err(Misuse::Amount);
        }
        if n > HELD_LIMIT - held {
            return Err(Misuse::HeldFull);
        }
        self.pass.get(&self.gate, slot, n);
        Ok(())
    }

    /// Drops `n` references. Refuses with Slot, Amount or NotHeld.
    pub fn put(&mut self, slot: u32, n: u32) -> Result<Put, Misuse>
        ensures { Ran (put_misuse slot n self.old) (HasPut slot n) self.old self.new result }
    {
        self.refuse_slot(slot)?;
        if n == 0 {
            return Err(Misuse::Amount);
        }
        if n > self.pass.held() {
            return Err(Misuse::NotHeld);
        }
        Ok(self.pass.put(&self.gate, slot, n))
    }

    /// The front. Never refused.
    pub fn front(&mut self) -> Result<u64, Misuse>
        ensures { Ran None ReadFront self.old self.new result }
    {
        Ok(self.pass.front(&self.gate))
    }

    /// Whether the gate was killed.
    pub fn is_dying(&mut self) -> bool
        ensures { LookedForDead self.old self.new result }
    {
        self.pass.is_dying(&self.gate)
    }

    /// Whether the count has reached zero.
    pub fn is_zero(&mut self) -> bool
        ensures { LookedForZero self.old self.new result }
    {
        self.pass.is_zero(&self.gate)
    }

    /// A guarded word. Refuses with NotHeld or Word.
    pub fn word(&mut self, k: u32) -> Result<u64, Misuse>
        ensures { Ran (word_misuse k self.old) (ReadWord k) self.old self.new result }
    {
        if self.pass.held() == 0 {
            return Err(Misuse::NotHeld);
        }
        if k as usize >= WORDS {
            return Err(Misuse::Word);
        }
        Ok(self.pass.word(&self.gate, k))
    }

    /// The number of its gate.
    pub fn number(&self) -> DrawnNumber
        ensures { result ≡ self.now.number }
    {
        self.number
    }

    /// The references that it holds.
    pub fn held(&self) -> u32
        ensures { result ≡ held_by self.now }
    {
        self.pass.held()
    }

    /// The pass alone.
    pub fn into_pass(self) -> Pass<WORDS>
        ensures { result ≡ self.pass }
    {
        let Self {
            before: _,
            gate: _,
            number: _,
            pass,
            after: _,
        } = self;
        pass
    }
}
