// The counts of a run: each step is counted, and so is each output and report, with a place or without.
// Each asks for room, which a type could not keep: the step that is counted takes it.
ghost use Rattle.std.specs.Prelude.{◌≡◌, ◌+◌, ◌^◌, ◌<◌};
ghost use Rattle.checker.specs.Pieces.{Room, reported, moved};

use super::Counts;

impl Counts {
    // A report is made.
    pub(crate) fn note(self) -> Counts
        requires { self.reports + 1 < 2 ^ 32 }
        ensures { result ≡ reported 1 self }
    {
        Counts {
            reports: self.reports + 1,
            ..self
        }
    }

    // A step is taken that goes on at an index.
    pub(crate) fn go_to(self, index: u32) -> Counts
        requires { Room self }
        ensures { result ≡ moved index 0 self }
    {
        Counts {
            index: index,
            steps: self.steps + 1,
            ..self
        }
    }

    // A step is taken that goes on at the next index.
    pub(crate) fn next(self) -> Counts
        requires { Room self }
        ensures { result ≡ moved (self.index + 1) 0 self }
    {
        self.go_to(self.index + 1)
    }

    // The same of a step that puts out a value.
    pub(crate) fn put_out(self) -> Counts
        requires { Room self }
        ensures { result ≡ moved (self.index + 1) 1 self }
    {
        Counts {
            outputs: self.outputs + 1,
            ..self.next()
        }
    }
}
