// The two lists of a run: number k goes to place k if there is one, the other places keep their words.
// Both are entered word by word: with one function over an entry's size the compiler no longer lays a
// report into the loop, and a run has three to four tenths more instructions.
ghost use Rattle.std.specs.Prelude.{◌≡◌};
ghost use Rattle.machine.specs.Instructions.{output};
ghost use Rattle.machine.specs.Steps.{report};
ghost use Rattle.checker.specs.Pieces.{kind_number};
ghost use Rattle.machine.specs.Lists.{report_size, output_size, report_words, output_words, entered};

use super::Counts;
use super::kinds::Kind;
use flat::limits::{OUTPUT, REPORT};

// A report's four words: steps taken before this one, instruction index, kind, detail.
pub fn enter_report(c: Counts, kind: Kind, detail: u32, reports: &mut [u32])
    ensures { reports.new ≡ entered report_size c.reports (report_words c.steps c.index (report (kind_number kind) detail)) reports.old }
{
    let k = c.reports as usize;
    if reports.len() / REPORT <= k {
        return;
    }
    let at = REPORT * k;
    reports[at] = c.steps;
    reports[at + 1] = c.index;
    reports[at + 2] = kind.into();
    reports[at + 3] = detail;
}

// An output's two words: port and value.
pub fn enter_output(c: Counts, port: u32, value: u32, outputs: &mut [u32])
    ensures { outputs.new ≡ entered output_size c.outputs (output_words (output port value)) outputs.old }
{
    let k = c.outputs as usize;
    if outputs.len() / OUTPUT <= k {
        return;
    }
    let at = OUTPUT * k;
    outputs[at] = port;
    outputs[at + 1] = value;
}
