// Sets of values as pairs of bytes, low byte first.
ghost use Rattle.std.specs.Prelude.{◌≡◌, ◌+◌, ◌*◌, ◌≤◌, length};
ghost use Rattle.model.specs.Bytes.{two_bytes};
ghost use Rattle.model.specs.Written.{Written};
ghost use Rattle.export_filter.specs.Filter.{sets_in, bytes_of};

fn word(low: u8, high: u8) -> u16
    ensures { result ≡ low + 256 * high }
{
    low as u16 + 256 * high as u16
}

// Reads as many sets as there are words.
pub fn load(sets: &[u8], words: &mut [u16])
    requires { length sets.now ≡ 2 * length words.old }
    ensures { words.new ≡ sets_in sets.now }
{
    for i in 0..words.len() {
        let at = 2 * i;
        words[i] = word(sets[at], sets[at + 1]);
    }
}

// Writes the words over the sets.
pub fn store(words: &[u16], sets: &mut [u8])
    requires { length sets.old ≡ 2 * length words.now }
    ensures { sets.new ≡ bytes_of words.now }
{
    let mut at = 0;
    for i in 0..words.len() {
        at = two(sets, at, words[i]);
    }
}

fn two(out: &mut [u8], at: usize, x: u16) -> usize
    requires { at + 2 ≤ length out.old }
    ensures { Written out.old at (two_bytes x) out.new result }
{
    let next = at + 1;
    out[at] = (x % 256) as u8;
    out[next] = (x / 256) as u8;
    next + 1
}
