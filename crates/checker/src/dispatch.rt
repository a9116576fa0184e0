// One step: the jump from the op of the instruction at a place to the method of its group. Each
// case reads the fields that it uses, and names its operation, so that the compiler makes a piece of
// code for it alone.
ghost use Rattle.std.specs.Prelude.{◌<◌};
ghost use Rattle.image.specs.Encoding.{ops};
ghost use Rattle.image.specs.declared.Instruction.TheVariants.{Compute};
ghost use Rattle.image.specs.declared.Operand.TheVariants.{Register, Literal};
ghost use Rattle.checker.specs.Pieces.{MayStep, Steps, standing, move_at, compute_at, mark_at, ByteIs, IsAccess};

use super::fields::{Place, is_store, widening_of, width_of};
use super::step::Machine;
use image::format::HALF;
use image::{Operand, ops};
use rules::{Data, Operation};

impl Machine<'_> {
    // ---- the groups
    // MOV.
    fn moves(&mut self, here: Place)
        requires { MayStep (move_at here.code.now here.index) self.old }
        ensures { Steps (move_at here.entry.code.now here.entry.index) self.old self.new }
    {
        let d = here.d();
        let b = here.b();
        if b == ops::LITERAL {
            let y = Data(here.imm());
            self.copy(d, Operand::Literal(y));
        } else {
            self.copy(d, Operand::Register(b));
        }
    }

    // An operation on two registers.
    fn on_register(&mut self, op: Operation, d: u8, a: u8, b: u8)
        requires { MayStep (Compute op d a (Register b)) self.old }
        ensures { Steps (Compute op d a (Register b)) self.old self.new }
    {
        self.compute(op, d, a, Operand::Register(b));
    }

    // An operation on a register and a literal.
    fn on_literal(&mut self, op: Operation, d: u8, a: u8, y: Data)
        requires { MayStep (Compute op d a (Literal y)) self.old }
        ensures { Steps (Compute op d a (Literal y)) self.old self.new }
    {
        self.compute(op, d, a, Operand::Literal(y));
    }

    // An operation on a register and B. The two methods above, which it calls, stand by themselves: without
    // them a step's code has six instructions more (docs/SPEED.md).
    fn computes(&mut self, op: Operation, here: Place)
        requires { MayStep (compute_at op here.code.now here.index) self.old }
        ensures { Steps (compute_at op here.entry.code.now here.entry.index) self.old self.new }
    {
        let d = here.d();
        let a = here.a();
        let b = here.b();
        if b == ops::LITERAL {
            let y = Data(here.imm());
            self.on_literal(op, d, a, y);
        } else {
            self.on_register(op, d, a, b);
        }
    }

    // OPEN and CLOSE.
    fn marks(&mut self, addressable: bool, here: Place)
        requires { MayStep (mark_at addressable here.code.now here.index) self.old }
        ensures { Steps (mark_at addressable here.entry.code.now here.entry.index) self.old self.new }
    {
        let range = here.imm();
        self.mark(addressable, range % HALF, range / HALF);
    }

    // A load or a store.
    fn accesses(&mut self, op: u8, here: Place)
        requires { ByteIs here.code.now here.index 0 op × IsAccess op × MayStep (standing here.code.now here.index) self.old }
        ensures { Steps (standing here.entry.code.now here.entry.index) self.old self.new }
    {
        let width = width_of(op);
        let d = here.d();
        let a = here.a();
        let offset = here.imm();
        if is_store(op) {
            self.store(width, d, a, offset);
        } else {
            self.load(width, widening_of(op), d, a, offset);
        }
    }

    // ---- the step
    // Of the instruction at a place, whose op is given.
    #[tactic(auto, using(crate::proofs::DispatchLaws::stepping), unfolding(image::specs::Encoding::op_of, image::specs::Encoding::mark_op))]
    pub fn step(&mut self, op: u8, here: Place)
        requires { ByteIs here.code.now here.index 0 op × (op < ops) × MayStep (standing here.code.now here.index) self.old }
        ensures { Steps (standing here.entry.code.now here.entry.index) self.old self.new }
    {
        match op {
            ops::STOP => self.stop(),
            ops::MOV => self.moves(here),
            ops::ADD => self.computes(Operation::Add, here),
            ops::SUB => self.computes(Operation::Sub, here),
            ops::MUL => self.computes(Operation::Mul, here),
            ops::AND => self.computes(Operation::And, here),
            ops::OR => self.computes(Operation::Or, here),
            ops::XOR => self.computes(Operation::Xor, here),
            ops::SHL => self.computes(Operation::Shl, here),
            ops::SHR => self.computes(Operation::Shr, here),
            ops::SAR => self.computes(Operation::Sar, here),
            ops::EQ => self.computes(Operation::Eq, here),
            ops::LTU => self.computes(Operation::Ltu, here),
            ops::JNZ => self.jump(here.a(), here.imm()),
            ops::EMIT => self.emit(here.a(), here.imm()),
            ops::OPEN => self.marks(true, here),
            ops::CLOSE => self.marks(false, here),
            _ => self.accesses(op, here),
        }
    }
}
