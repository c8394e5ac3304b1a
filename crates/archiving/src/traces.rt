// Gates on words: word n is what number n of a page holds, in 64 cases side by side, bit l in case l.
ghost use Rattle.std.specs.Prelude.{◌≡◌, ℕ, ◌<◌, length, slice_index};
ghost use Rattle.bench.specs.Kinds.{gate_result};
ghost use Rattle.bench.specs.Word.{test_bit};
ghost use Rattle.archiving.specs.Traces.{made_by, stepped};

use bench::gates::Gate;

fn word_at(words: &[u64], number: u16) -> u64
    ensures { result ≡ slice_index words.now number }
{
    words.get(usize::from(number)).copied().unwrap_or(0)
}

// One gate done on the words, and what its target then holds.
pub fn do_gate(words: &mut [u64], gate: Gate) -> u64
    ensures value { result ≡ made_by gate words.old }
    ensures leaves { words.new ≡ stepped gate words.old }
    ensures cases { (l : ℕ) → l < 64 → test_bit result l ≡ gate_result gate.kind (test_bit (slice_index words.old gate.first) l) (test_bit (slice_index words.old gate.second) l) }
{
    let word = gate
        .kind
        .on_words(word_at(words, gate.first), word_at(words, gate.second));
    if (gate.target as usize) < words.len() {
        words[gate.target as usize] = word;
    }
    word
}
