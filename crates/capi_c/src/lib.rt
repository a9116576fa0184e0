// The calls by C's calling convention: each calls the function of `capi` of its name and promises what
// that one promises. They stand twice, since a crate is a library or an archive for C, and not both. The
// names are the symbols that a program is linked by (include/uviktalik.h).
#![tactic(auto)]

ghost use Rattle.std.specs.Prelude.{◌≡◌};
ghost use Rattle.capi.specs.Words.{version};
ghost use Rattle.capi.specs.Promises.{ReadPromise, BeginPromise, RunPromise, WritePromise, CommandPromise};

// The words of a state.
const STATE: usize = 36;

#[unsafe(no_mangle)]
pub extern "C" fn uviktalik_version() -> u32
    ensures { result ≡ version }
{
    capi::uviktalik_version()
}

#[unsafe(no_mangle)]
pub extern "C" fn uviktalik_read_2(
    image: &[u8],
    header: &mut [u32; 4],
    code: &mut [usize; 2],
    fault: &mut usize,
) -> u8
    ensures { ReadPromise image.now result header.new code.new fault.new }
{
    capi::uviktalik_read_2(image, header, code, fault)
}

#[unsafe(no_mangle)]
pub extern "C" fn uviktalik_begin_2(
    image: &[u8],
    regs: &[u32; 16],
    mem: &mut [u8],
    vbits: &mut [u8],
    abits: &mut [u8],
    state: &mut [u32; STATE],
    fault: &mut usize,
) -> u8
    ensures { BeginPromise image.now regs.now mem.old vbits.old abits.old result mem.new vbits.new abits.new state.new fault.new }
{
    capi::uviktalik_begin_2(image, regs, mem, vbits, abits, state, fault)
}

#[unsafe(no_mangle)]
pub extern "C" fn uviktalik_run_2(
    image: &[u8],
    state: &mut [u32; STATE],
    mem: &mut [u8],
    vbits: &mut [u8],
    abits: &mut [u8],
    reports: &mut [u32],
    outputs: &mut [u32],
    budget: u32,
    reason: &mut u8,
    fault: &mut usize,
) -> u8
    ensures { RunPromise image.now state.old mem.old vbits.old abits.old reports.old outputs.old budget result state.new mem.new vbits.new abits.new reports.new outputs.new reason.new fault.new }
{
    capi::uviktalik_run_2(
        image, state, mem, vbits, abits, reports, outputs, budget, reason, fault,
    )
}

#[unsafe(no_mangle)]
pub extern "C" fn uviktalik_write_2(
    m: u32,
    instructions: &[u32],
    regions: &[u32],
    data: &[u8],
    out: &mut [u8],
    size: &mut usize,
    fault: &mut usize,
) -> u8
    ensures { WritePromise m instructions.now regions.now «data».now out.old result out.new size.new fault.new }
{
    capi::uviktalik_write_2(m, instructions, regions, data, out, size, fault)
}

#[unsafe(no_mangle)]
pub extern "C" fn uviktalik_command_2(
    outputs: &[u32],
    number: usize,
    kind: &mut u8,
    bits: &mut u32,
) -> u8
    ensures { CommandPromise outputs.now number result kind.new bits.new }
{
    capi::uviktalik_command_2(outputs, number, kind, bits)
}
