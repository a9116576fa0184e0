// The commands of the script, and what they work on. A command is a line: a letter, then numbers, bytes
// or a text. A letter that stands for none does nothing, so # begins a comment.
use super::changes;
use super::numbers::{ROOM, bytes, numbers};
use super::series::{Series, Sizes};
use checker::Counts;
use image::format::part;
use std::io;
use std::io::Write;

// The image and its size, as there is no heap; what a call is lent; the series as it was kept, and as it is.
#[derive(Clone, Copy)]
pub struct Desk {
    image: [u8; ROOM],
    size: usize,
    sizes: Sizes,
    kept: Series,
    now: Series,
}

impl Desk {
    pub fn empty() -> Desk {
        Desk {
            image: [0; ROOM],
            size: 0,
            sizes: Sizes {
                mem: 0,
                vbits: 0,
                abits: 0,
                reports: 0,
                outputs: 0,
            },
            kept: Series::fresh(),
            now: Series::fresh(),
        }
    }

    fn image(&self) -> &[u8] {
        part(&self.image, 0, self.size)
    }

    // t: the end, and the parts that are not as they were kept.
    fn tell(&self, out: &mut impl Write) -> io::Result<()> {
        changes::end(out, &self.now)?;
        if let (Ok(Some(old)), Ok(Some(new))) = (self.kept.answer, self.now.answer) {
            if old != new {
                write!(out, ", reasons differ")?;
            }
        }
        changes::tell(out, &self.kept, &self.now)?;
        writeln!(out)
    }

    // d what has changed, a all.
    fn show(&self, out: &mut impl Write, all: bool) -> io::Result<()> {
        changes::show(out, &self.kept, &self.now, self.sizes, all)
    }

    // Does what a line says.
    pub fn obey(&mut self, out: &mut impl Write, line: &[u8]) -> io::Result<()> {
        let Some((letter, rest)) = line.split_first() else {
            return Ok(());
        };
        let [x, y, z, u, v] = numbers(rest);
        // a case for each letter: a table of closures, with other numbers for each, is no plainer
        match *letter {
            // More bytes of the image.
            b'h' => self.size = bytes(rest, &mut self.image, self.size),

            // The size of the image; 0 before the first bytes of another.
            b'z' => self.size = x as usize,

            // The bytes and words that a call is lent.
            b's' => {
                self.sizes = Sizes {
                    mem: x as usize,
                    vbits: y as usize,
                    abits: z as usize,
                    reports: u as usize,
                    outputs: v as usize,
                }
            }
            b'f' => self.now = Series::fresh(),
            b'b' => self.now = Series::begun(self.image(), self.sizes),

            // What there is now is kept, to be compared with.
            b'k' => self.kept = self.now,
            b'u' => self.now = self.kept,

            // So many runs with that budget.
            b'r' => {
                let mut now = self.now;
                now.run(self.image(), self.sizes, x, y);
                self.now = now;
            }

            // A beginning and a run with that budget, on buffers large enough for any program.
            b'l' => self.now = Series::ran_large(self.image(), self.sizes, x),
            b'c' => {
                self.now.state.counts = Counts {
                    index: x,
                    steps: y,
                    outputs: z,
                    reports: u,
                }
            }

            // An A byte.
            b'm' => {
                if let Some(mark) = self.now.abits.get_mut(x as usize) {
                    *mark = (y & 0xff) as u8;
                }
            }
            b'"' => out.write_all(rest)?,
            b't' => self.tell(out)?,
            b'd' => self.show(out, false)?,
            b'a' => self.show(out, true)?,
            _ => {}
        }
        Ok(())
    }
}
