// The end of a call, and all that the call changed: registers, bytes, places of the lists. Each function
// takes what it prints to and the two series that it compares; a struct of the three would be taken apart.
use super::series::{BYTES, Series, Sizes};
use checker::limits::{MOST_OUTPUTS, MOST_REPORTS, OUTPUT, REPORT};
use std::io;
use std::io::Write;

// The refusal, which has no stop reason; or the stop reason and the counts.
pub fn end(out: &mut impl Write, s: &Series) -> io::Result<()> {
    match s.answer {
        Ok(reason) => {
            let c = s.state.counts;
            write!(
                out,
                ": reason {} index {} steps {} reports {} outputs {}",
                reason.map_or(0, |reason| reason.number()),
                c.index,
                c.steps,
                c.reports,
                c.outputs
            )
        }
        Err(refusal) => write!(
            out,
            ": refusal {} at {} reason 0",
            refusal.number(),
            refusal.index().min(9_999)
        ),
    }
}

// Names each part that differs.
pub fn tell(out: &mut impl Write, a: &Series, b: &Series) -> io::Result<()> {
    let parts = [
        ("registers", a.state.regs != b.state.regs),
        ("V words", a.state.shadows != b.state.shadows),
        ("counts", a.state.counts != b.state.counts),
        ("memory bytes", a.mem != b.mem),
        ("V bytes", a.vbits != b.vbits),
        ("A bytes", a.abits != b.abits),
        ("reports", a.reports != b.reports),
        ("outputs", a.outputs != b.outputs),
    ];
    for (name, differs) in parts {
        if differs {
            write!(out, ", {name} differ")?;
        }
    }
    if !parts.iter().any(|part| part.1) {
        write!(out, ", nothing differs")?;
    }
    Ok(())
}

// The registers that are not as they were; or all. By their numbers, as four arrays are read.
fn registers(out: &mut impl Write, a: &Series, b: &Series, all: bool) -> io::Result<()> {
    for r in 0..16 {
        let now = [b.state.regs[r].0, b.state.shadows[r].0];
        if all || now != [a.state.regs[r].0, a.state.shadows[r].0] {
            let [x, v] = now;
            writeln!(out, "  r{r} {x:08x} V {v:08x}")?;
        }
    }
    Ok(())
}

// The bytes of memory that are not as they were, or their V or A; or all. By their addresses, likewise.
fn cells(out: &mut impl Write, a: &Series, b: &Series, all: bool) -> io::Result<()> {
    for k in 0..BYTES {
        let now = [b.mem[k], b.vbits[k], b.abits[k]];
        if all || now != [a.mem[k], a.vbits[k], a.abits[k]] {
            let [x, v, m] = now;
            writeln!(out, "  byte {k}: {x:02x} V {v:02x} A {m}")?;
        }
    }
    Ok(())
}

// Of a list of so many, the first three and the last are shown.
fn is_shown(k: usize, stored: usize) -> bool {
    k < 3 || k == stored.saturating_sub(1)
}

// The stored reports; the words past them must be the old ones. The detail of an access is an address, of
// the other kinds a V word.
fn reports(out: &mut impl Write, a: &Series, b: &Series, stored: usize) -> io::Result<()> {
    for (k, report) in b.reports[..MOST_REPORTS].iter().take(stored).enumerate() {
        if is_shown(k, stored) {
            let [step, index, kind, detail] = *report;
            write!(
                out,
                "  report {k}: step {step} index {index} kind {kind} detail "
            )?;
            // kinds of an access, as words of the list: the checker lends no other form
            match kind {
                3 | 4 => writeln!(out, "{detail}")?,
                _ => writeln!(out, "{detail:08x}")?,
            }
        }
    }
    let past = stored % (MOST_REPORTS + 1);
    if a.reports[past..] != b.reports[past..] {
        writeln!(out, "  a word past the reports has changed")?;
    }
    Ok(())
}

fn outputs(out: &mut impl Write, a: &Series, b: &Series, stored: usize) -> io::Result<()> {
    for (k, [port, value]) in b.outputs[..MOST_OUTPUTS].iter().take(stored).enumerate() {
        if is_shown(k, stored) {
            writeln!(out, "  output {k}: port {port} value {value:08x}")?;
        }
    }
    let past = stored % (MOST_OUTPUTS + 1);
    if a.outputs[past..] != b.outputs[past..] {
        writeln!(out, "  a word past the outputs has changed")?;
    }
    Ok(())
}

// The end, and what is not as it was before, or all registers and bytes; the lists are of these sizes.
pub fn show(
    out: &mut impl Write,
    a: &Series,
    b: &Series,
    sizes: Sizes,
    all: bool,
) -> io::Result<()> {
    let c = b.state.counts;
    end(out, b)?;
    writeln!(out)?;
    registers(out, a, b, all)?;
    cells(out, a, b, all)?;
    reports(out, a, b, (c.reports as usize).min(sizes.reports / REPORT))?;
    outputs(out, a, b, (c.outputs as usize).min(sizes.outputs / OUTPUT))
}
