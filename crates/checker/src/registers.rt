// The sixteen registers of a run with their V words, in plain words.
ghost use Rattle.std.specs.Prelude.{◌≡◌, ◌<◌, get_or, set};
ghost use Rattle.image.specs.Format.{registers};
ghost use Rattle.image.specs.Accepted.{OperandFits};
ghost use Rattle.machine.specs.Instructions.{operand_data};
ghost use Rattle.machine.specs.Steps.{operand_v};

use image::Operand;
use rules::{Data, Shadow, Value};

// Two arrays, as the definitions have two lists of words, each at a fixed place in the loop.
#[derive(Clone, Copy)]
pub struct Registers {
    pub data: [u32; 16],
    pub shadows: [u32; 16],
}

// A register is a number below 16, as in every definition: a type for it is no plainer.
impl Registers {
    // What register a holds.
    pub fn value(&self, a: u8) -> Value
        requires { a < registers }
        ensures data_word { result.data.0 ≡ get_or self.now.data a 0 }
        ensures shadow_word { result.shadow.0 ≡ get_or self.now.shadows a 0 }
    {
        Value {
            data: Data(self.data[a as usize]),
            shadow: Shadow(self.shadows[a as usize]),
        }
    }

    // The value of B; a literal is fully defined.
    pub fn operand(&self, b: Operand) -> Value
        requires { OperandFits b }
        ensures data_word { result.data.0 ≡ operand_data b self.now.data }
        ensures shadow_word { result.shadow.0 ≡ operand_v b self.now.shadows }
    {
        match b {
            Operand::Register(r) => self.value(r),
            Operand::Literal(x) => Value {
                data: x,
                shadow: Shadow(0),
            },
        }
    }

    // Register d gets a value.
    pub fn set(&mut self, d: u8, x: Value)
        requires { d < registers }
        ensures data_words { self.new.data ≡ set self.old.data d x.data.0 }
        ensures shadow_words { self.new.shadows ≡ set self.old.shadows d x.shadow.0 }
    {
        self.data[d as usize] = x.data.0;
        self.shadows[d as usize] = x.shadow.0;
    }

    // V of register a is set to 0.
    pub fn clear(&mut self, a: u8)
        requires { a < registers }
        ensures data_words { self.new.data ≡ self.old.data }
        ensures shadow_words { self.new.shadows ≡ set self.old.shadows a 0 }
    {
        self.shadows[a as usize] = 0;
    }
}
