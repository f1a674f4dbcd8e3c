// Tables of 32-bit words lent as bytes, four to a word, low first. Every read and write is total.

#![tactic(auto)]

ghost use Rattle.std.specs.Prelude.{◌≡◌, ◌+◌, ◌*◌, min, length};
ghost use Rattle.words.specs.Words.{word_at, words_of, float_at, floats_of, put_word, with_words, sent_words};

// Word i, and 0 where the bytes do not have all of it.
#[tactic(auto, unfolding(crate::specs::Words::word_at))]
pub fn word(b: &[u8], i: usize) -> u32
    ensures { result ≡ word_at b.now i }
{
    if i < b.len() / 4 {
        let p = 4 * i;
        return u32::from_le_bytes([b[p], b[p + 1], b[p + 2], b[p + 3]]);
    }
    0
}

// Word i becomes w, where the bytes have all of it: four plain stores, so that a loop over it is a copy.
pub fn put(b: &mut [u8], i: usize, w: u32)
    ensures { b.new ≡ put_word b.old i w }
{
    if i < b.len() / 4 {
        let p = 4 * i;
        let [b0, b1, b2, b3] = w.to_le_bytes();
        b[p] = b0;
        b[p + 1] = b1;
        b[p + 2] = b2;
        b[p + 3] = b3;
    }
}

// The words of the bytes are copied out, as far as the bytes go, and then zeros: a loop and a fill, so that the loop
// compiles to a copy.
pub fn load(b: &[u8], words: &mut [u32])
    ensures { words.new ≡ words_of b.now (length words.old) }
{
    let m = words.len().min(b.len() / 4);
    for i in 0..m {
        words[i] = word(b, i);
    }
    words[m..].fill(0);
}

#[tactic(auto, unfolding(crate::specs::Words::float_at))]
fn float_at(ws: &[u32], i: usize) -> f32
    ensures { result ≡ float_at ws.now i }
{
    scalar::float(ws.get(i).copied().unwrap_or(0))
}

// The words seen as floats, a NaN's bits a NaN.
pub fn floats(ws: &[u32], fs: &mut [f32])
    ensures { fs.new ≡ floats_of ws.now (length fs.old) }
{
    for (i, x) in fs.iter_mut().enumerate() {
        *x = float_at(ws, i);
    }
}

// The words are copied in, as far as the bytes have their places: no turn tests for its place.
pub fn store(words: &[u32], b: &mut [u8])
    ensures { b.new ≡ with_words b.old words.now }
{
    let m = words.len().min(b.len() / 4);
    for i in 0..m {
        put(b, i, words[i]);
    }
}

// An answer's words are copied in, where there is room for all of them.
#[tactic(auto, unfolding(crate::specs::Words::sent_words))]
pub fn send(words: &[u32], out: &mut [u8])
    ensures { out.new ≡ sent_words out.old words.now }
{
    if words.len() <= out.len() / 4 {
        store(words, out);
    }
}
