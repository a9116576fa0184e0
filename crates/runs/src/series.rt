// A series: a beginning and the runs after it, with all that goes from one to the next.
use checker::limits::{MOST_OUTPUTS, MOST_REPORTS, OUTPUT, REPORT};
use checker::{Counts, Reason, Refusal, State};
use rules::{Data, Shadow};

// The bytes of each buffer, of which a call gets a part.
pub const BYTES: usize = 65;

// The bytes of each buffer for the most memory that a program can have, and one more.
const LARGE: usize = image::format::MOST_M as usize + 1;

// What the last call answered, with the stop reason of a run, and what it left. Each list has a place more
// than a call may get.
#[derive(Clone, Copy)]
pub struct SeriesOf<const SIZE: usize> {
    pub answer: Result<Option<Reason>, Refusal>,
    pub state: State,
    pub mem: [u8; SIZE],
    pub vbits: [u8; SIZE],
    pub abits: [u8; SIZE],
    pub reports: [[u32; REPORT]; MOST_REPORTS + 1],
    pub outputs: [[u32; OUTPUT]; MOST_OUTPUTS + 1],
}

pub type Series = SeriesOf<BYTES>;

// How many bytes and words a call gets: the buffers for memory, V and A, the two lists.
#[derive(Clone, Copy)]
pub struct Sizes {
    pub mem: usize,
    pub vbits: usize,
    pub abits: usize,
    pub reports: usize,
    pub outputs: usize,
}

// Before a beginning byte i of memory holds 64 + i, V and A hold what no byte of theirs should keep.
const LEFT_OVER: [u8; BYTES] =
    *b"@ABCDEFGHIJKLMNOPQRSTUVWXYZ[\\]^_`abcdefghijklmnopqrstuvwxyz{|}~\x7f\x80";

const OLD_V: u8 = 0x33;

const OLD_A: u8 = 0x44;

// What each byte of a large memory holds at first.
const OLD_DATA: u8 = 0x55;

// Register r holds r; but register 15 holds 0, so that with it an imm is an address.
const REGISTERS: [Data; 16] = [
    Data(0),
    Data(1),
    Data(2),
    Data(3),
    Data(4),
    Data(5),
    Data(6),
    Data(7),
    Data(8),
    Data(9),
    Data(10),
    Data(11),
    Data(12),
    Data(13),
    Data(14),
    Data(0),
];

// What each word of the lists holds at first.
const OLD_WORD: u32 = 0xeeee_eeee;

// The first n items, or as many as there are.
fn front<T>(items: &mut [T], n: usize) -> &mut [T] {
    let end = n.min(items.len());
    &mut items[..end]
}

impl<const SIZE: usize> SeriesOf<SIZE> {
    // No state yet, this memory, and the other buffers and the lists as above.
    fn with_memory(mem: [u8; SIZE]) -> SeriesOf<SIZE> {
        SeriesOf {
            answer: Ok(None),
            state: State {
                regs: [Data(0); 16],
                shadows: [Shadow(0); 16],
                counts: Counts::default(),
            },
            mem,
            vbits: [OLD_V; SIZE],
            abits: [OLD_A; SIZE],
            reports: [[OLD_WORD; REPORT]; MOST_REPORTS + 1],
            outputs: [[OLD_WORD; OUTPUT]; MOST_OUTPUTS + 1],
        }
    }

    // A beginning on the fronts of the buffers.
    fn begin(&mut self, image: &[u8], sizes: Sizes) {
        let began = checker::begin(
            image,
            REGISTERS,
            front(&mut self.mem, sizes.mem),
            front(&mut self.vbits, sizes.vbits),
            front(&mut self.abits, sizes.abits),
        );
        self.answer = began.map(|state| {
            self.state = state;
            None
        });
    }

    // So many runs on the fronts of the buffers and lists, each with that budget.
    pub fn run(&mut self, image: &[u8], sizes: Sizes, runs: u32, budget: u32) {
        for _ in 0..runs {
            let ran = checker::run(
                image,
                self.state,
                front(&mut self.mem, sizes.mem),
                front(&mut self.vbits, sizes.vbits),
                front(&mut self.abits, sizes.abits),
                front(self.reports.as_flattened_mut(), sizes.reports),
                front(self.outputs.as_flattened_mut(), sizes.outputs),
                budget,
            );
            self.answer = ran.map(|ran| {
                self.state = ran.state;
                Some(ran.reason)
            });
        }
    }
}

impl SeriesOf<BYTES> {
    pub fn fresh() -> Series {
        SeriesOf::with_memory(LEFT_OVER)
    }

    // A beginning on fresh buffers.
    pub fn begun(image: &[u8], sizes: Sizes) -> Series {
        let mut series = Series::fresh();
        series.begin(image, sizes);
        series
    }

    // A beginning and, if it is accepted, a run on the fronts of large buffers; they are not kept.
    pub fn ran_large(image: &[u8], sizes: Sizes, budget: u32) -> Series {
        let mut large = SeriesOf::with_memory([OLD_DATA; LARGE]);
        large.begin(image, sizes);
        if large.answer.is_ok() {
            large.run(image, sizes, 1, budget);
        }
        SeriesOf {
            answer: large.answer,
            state: large.state,
            reports: large.reports,
            outputs: large.outputs,
            ..Series::fresh()
        }
    }
}
