// What the instructions do (document 01, the table of instructions and Shadow rules): a method for each
// group of them, each equal to `stepped` of its instruction.
ghost use Rattle.std.specs.Prelude.{◌≡◌, cond, not, [], ◌∷◌, ◌+◌, ◌^◌, ◌<◌, length, get_or, set};
ghost use Rattle.image.specs.Format.{registers};
ghost use Rattle.image.specs.declared.Instruction.TheVariants.{Stop, Move, Compute, Load, Store, Jump, Emit, Mark};
ghost use Rattle.machine.specs.Instructions.{address_of, bytes_of, widened};
ghost use Rattle.machine.specs.Ranges.{is_addressable, all_addressable, loaded_where};
ghost use Rattle.machine.specs.Steps.{same_register, mark_of, report, if_undefined, if_blocked};
ghost use Rattle.flat.specs.Registers.{data_words, shadow_words};

use super::kinds::Kind;
use super::registers::Registers;
use super::{Counts, State, lists, ranges};
use flat::registers;
use image::{Operand, Widening, Width};
use rules::bytes::byte;
use rules::{Data, Operation, Shadow, Value};

// All that a run works on: the counts, and what it is lent, each as C lends it. Memory, and its V and A
// bits, have one size.
#[derive(Drop)]
pub struct Machine<'a> {
    pub counts: Counts,
    pub registers: &'a mut Registers,
    pub mem: &'a mut [u8],
    pub vbits: &'a mut [u8],
    pub abits: &'a mut [u8],
    pub reports: &'a mut [u32],
    pub outputs: &'a mut [u32],
    ghost size_v: { length vbits.now ≡ length mem.now },
    ghost size_a: { length abits.now ≡ length mem.now },
}

// An access to memory after its checks: where it begins, and whether all its bytes are addressable.
#[derive(Clone, Copy)]
struct Access {
    at: u32,
    whole: bool,
}

// Whether a and B are the same register.
fn same_register(a: u8, b: Operand) -> bool
    ensures { result ≡ same_register a b }
{
    b == Operand::Register(a)
}

// A of the bytes that OPEN or CLOSE leaves.
fn mark_of(addressable: bool) -> u8
    ensures { result ≡ mark_of addressable }
{
    if addressable {
        ranges::ADDRESSABLE
    } else {
        ranges::UNADDRESSABLE
    }
}

impl Machine<'_> {
    ghost use Rattle.checker.specs.Pieces.{kind_number, StepRoom, MayStep, Checked, Accessed, Kept, Stored, Steps};

    // The state that it is in.
    pub fn state(&self) -> State
        ensures counts { result.counts ≡ self.now.counts }
        ensures data_words { data_words result.regs ≡ self.now.registers.now.data }
        ensures shadow_words { shadow_words result.shadows ≡ self.now.registers.now.shadows }
    {
        State {
            regs: registers::from_words(self.registers.data),
            shadows: registers::from_words(self.registers.shadows),
            counts: self.counts,
        }
    }

    // ---- checks. What they ask, a register that there is and room for a report, is what the instruction and
    // the counts say: a type for it would stand in every definition of the machine.
    // Register a plus imm, modulo 4,294,967,296.
    fn address(&self, a: u8, imm: u32) -> u32
        requires { a < registers }
        ensures { result ≡ address_of self.now.registers.now.data a imm }
    {
        rules::actions::add(self.registers.value(a).data, Data(imm)).0
    }

    fn report(&mut self, kind: Kind, detail: u32)
        requires { self.old.counts.reports + 1 < 2 ^ 32 }
        ensures { Checked (report (kind_number kind) detail ∷ []) self.old.registers.now.shadows self.old self.new }
    {
        lists::enter_report(self.counts, kind, detail, self.reports);
        self.counts = self.counts.note();
    }

    // If V of register a is not 0: a report, and it is set to 0.
    fn use_register(&mut self, kind: Kind, a: u8)
        requires { (self.old.counts.reports + 1 < 2 ^ 32) × (a < registers) }
        ensures { Checked (if_undefined (kind_number kind) (get_or self.old.registers.now.shadows a 0)) (set self.old.registers.now.shadows a 0) self.old self.new }
    {
        let v = self.registers.value(a).shadow;
        if v.0 != 0 {
            self.registers.clear(a);
            self.report(kind, v.0);
        }
    }

    // If a byte of an access is unaddressable: a report.
    fn use_bytes(&mut self, kind: Kind, whole: bool, place: u32)
        requires { self.old.counts.reports + 1 < 2 ^ 32 }
        ensures { Checked (if_blocked (kind_number kind) place (not whole)) self.old.registers.now.shadows self.old self.new }
    {
        if !whole {
            self.report(kind, place);
        }
    }

    // Whether a byte is addressable, and whether every byte of an access is.
    fn is_addressable(&self, at: usize) -> bool
        ensures { result ≡ is_addressable self.now.abits.now at }
    {
        ranges::is_addressable(self.abits, at)
    }

    fn all_addressable(&self, width: Width, at: u32) -> bool
        ensures { result ≡ all_addressable self.now.abits.now at (bytes_of width) }
    {
        ranges::all_addressable(width, self.abits, at)
    }

    // The checks of a load or store, in their order: of register a, then of the bytes.
    fn access(&mut self, kind: Kind, width: Width, a: u8, imm: u32) -> Access
        requires { StepRoom self.old.counts × (a < registers) }
        ensures { Accessed (kind_number kind) width a imm result.at result.whole self.old self.new }
    {
        let at = self.address(a, imm);
        self.use_register(Kind::UndefinedAddress, a);
        let whole = self.all_addressable(width, at);
        self.use_bytes(kind, whole, at);
        Access {
            at: at,
            whole: whole,
        }
    }

    // ---- the groups of instructions
    // STOP takes a step like any other, though a run never asks for it.
    pub fn stop(&mut self)
        requires { MayStep Stop self.old }
        ensures { Steps Stop self.old self.new }
    {
        self.counts = self.counts.next();
    }

    pub fn copy(&mut self, d: u8, b: Operand)
        requires { MayStep (Move d b) self.old }
        ensures { Steps (Move d b) self.old self.new }
    {
        let y = self.registers.operand(b);
        let z = Value {
            data: rules::actions::mov(y.data),
            shadow: rules::shadows::mov(y.shadow),
        };
        self.registers.set(d, z);
        self.counts = self.counts.next();
    }

    pub fn compute(&mut self, op: Operation, d: u8, a: u8, b: Operand)
        requires { MayStep (Compute op d a b) self.old }
        ensures { Steps (Compute op d a b) self.old self.new }
    {
        let x = self.registers.value(a);
        let y = self.registers.operand(b);
        let same = same_register(a, b);
        let z = Value {
            data: rules::action(op, x.data, y.data),
            shadow: rules::shadow_of(op, same, x, y),
        };
        self.registers.set(d, z);
        self.counts = self.counts.next();
    }

    // What a load finds after its checks, data and V bits widened alike.
    fn found(&self, width: Width, widening: Widening, access: Access) -> Value
        requires { access.whole ≡ all_addressable self.now.abits.now access.at (bytes_of width) }
        ensures data_word { result.data.0 ≡ widened widening (bytes_of width) (loaded_where self.now.abits.now self.now.mem.now access.at (bytes_of width)) }
        ensures shadow_word { result.shadow.0 ≡ widened widening (bytes_of width) (loaded_where self.now.abits.now self.now.vbits.now access.at (bytes_of width)) }
    {
        let bytes = ranges::load(access.whole, width, self.abits, self.mem, access.at);
        let bytes_v = ranges::load(access.whole, width, self.abits, self.vbits, access.at);
        Value {
            data: Data(ranges::widen(width, widening, bytes)),
            shadow: Shadow(ranges::widen(width, widening, bytes_v)),
        }
    }

    pub fn load(&mut self, width: Width, widening: Widening, d: u8, a: u8, imm: u32)
        requires { MayStep (Load width widening d a imm) self.old }
        ensures { Steps (Load width widening d a imm) self.old self.new }
    {
        let access = self.access(Kind::UnaddressableLoad, width, a, imm);
        let x = self.found(width, widening, access);
        self.registers.set(d, x);
        self.counts = self.counts.next();
    }

    // A byte and its V bits to an address, if that is addressable.
    fn put(&mut self, x: u8, v: u8, at: usize)
        ensures kept { Kept self.old self.new }
        ensures mem_after { self.new.mem.now ≡ cond (is_addressable self.old.abits.now at) (set self.old.mem.now at x) self.old.mem.now }
        ensures vbits_after { self.new.vbits.now ≡ cond (is_addressable self.old.abits.now at) (set self.old.vbits.now at v) self.old.vbits.now }
    {
        if self.is_addressable(at) {
            self.mem[at] = x;
            self.vbits[at] = v;
        }
    }

    // The low bytes of a value, to the addressable bytes of an access.
    fn store_some(&mut self, width: Width, x: Value, at: u32)
        ensures { Stored x.data.0 x.shadow.0 at (bytes_of width) self.old self.new }
    {
        for k in 0..ranges::size_of(width) {
            self.put(
                byte(x.data.0, k as u32),
                byte(x.shadow.0, k as u32),
                at as usize + k,
            );
        }
    }

    // What a store writes after its checks.
    fn write(&mut self, width: Width, x: Value, access: Access)
        requires { access.whole ≡ all_addressable self.old.abits.now access.at (bytes_of width) }
        ensures { Stored x.data.0 x.shadow.0 access.at (bytes_of width) self.old self.new }
    {
        if access.whole {
            ranges::store_all(width, x.data.0, self.mem, access.at);
            ranges::store_all(width, x.shadow.0, self.vbits, access.at);
        } else {
            self.store_some(width, x, access.at);
        }
    }

    pub fn store(&mut self, width: Width, d: u8, a: u8, imm: u32)
        requires { MayStep (Store width d a imm) self.old }
        ensures { Steps (Store width d a imm) self.old self.new }
    {
        let access = self.access(Kind::UnaddressableStore, width, a, imm);
        let x = self.registers.value(d);
        self.write(width, x, access);
        self.counts = self.counts.next();
    }

    pub fn jump(&mut self, a: u8, target: u32)
        requires { MayStep (Jump a target) self.old }
        ensures { Steps (Jump a target) self.old self.new }
    {
        self.use_register(Kind::UndefinedCondition, a);
        let x = self.registers.value(a).data;
        if x.0 == 0 {
            self.counts = self.counts.next();
        } else {
            self.counts = self.counts.go_to(target);
        }
    }

    pub fn emit(&mut self, a: u8, port: u32)
        requires { MayStep (Emit a port) self.old }
        ensures { Steps (Emit a port) self.old self.new }
    {
        self.use_register(Kind::UndefinedOutput, a);
        let x = self.registers.value(a).data;
        lists::enter_output(self.counts, port, x.0, self.outputs);
        self.counts = self.counts.put_out();
    }

    pub fn mark(&mut self, addressable: bool, start: u32, size: u32)
        requires { MayStep (Mark addressable start size) self.old }
        ensures { Steps (Mark addressable start size) self.old self.new }
    {
        let at = start as usize;
        let count = size as usize;
        ranges::fill(ranges::UNDEFINED, self.vbits, at, count);
        ranges::fill(mark_of(addressable), self.abits, at, count);
        self.counts = self.counts.next();
    }
}
