// The numbers and the bytes of a line of the script.
// Room for a line, and for an image.
pub const LINE: usize = 120;

pub const ROOM: usize = 25_000;

fn digit(b: u8) -> u8 {
    match b {
        b'0'..=b'9' => b - b'0',
        b'a'..=b'f' => b - b'a' + 10,
        _ => 0,
    }
}

// A number with one digit more, modulo 4,294,967,296.
fn longer(x: u32, b: u8) -> u32 {
    x.wrapping_mul(10).wrapping_add(u32::from(digit(b)))
}

// Up to five decimal numbers of what follows a command's letter, each after one space.
pub fn numbers(rest: &[u8]) -> [u32; 5] {
    let mut found = [0; 5];
    let mut k = 4;
    for word in rest.split(|b| *b == b' ') {
        found[k % 5] = word.iter().fold(found[k % 5], |x, b| longer(x, *b));
        k = k % 5 + 1;
    }
    found
}

// The bytes of what follows a command's letter, in hexadecimal with any spaces and before any comment, go
// into the image from that place on. The place after them is given back.
pub fn bytes(rest: &[u8], image: &mut [u8; ROOM], from: usize) -> usize {
    let mut at = from;
    let mut high = None;
    for b in rest
        .iter()
        .take_while(|b| **b != b'#')
        .filter(|b| **b != b' ')
    {
        high = match high {
            None => Some(digit(*b) << 4),
            Some(high) => {
                let k = at % ROOM;
                image[k] = high | digit(*b);
                at = k + 1;
                None
            }
        };
    }
    at
}
