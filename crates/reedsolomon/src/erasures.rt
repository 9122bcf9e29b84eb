// The marked bytes of a word (document 02, request 2; the field's word is erasures), over words of any length: how many there are, and the syndromes without
// the errors at their places.
ghost use Rattle.std.specs.Prelude.{◌≡◌, ℕ, ◌<◌, ◌≤◌, length};
ghost use Rattle.codes.specs.Erasures.{erasure_count};
ghost use Rattle.codes.specs.Inner.{at, erased_place, without_marked};

use field::Logs;

// How many bytes are marked. Counted in a byte, so that the machine takes sixteen marks at a time.
pub fn count_erasures(erasures: &[u8]) -> usize
    requires { length erasures.now ≤ 255 }
    ensures { result ≡ erasure_count erasures.now (length erasures.now) }
{
    let mut count: u8 = 0;
    for mark in erasures {
        if *mark == 1 {
            count += 1;
        }
    }
    usize::from(count)
}

// The errors at the marked places drop out of the syndromes, one after the other. Each takes the last of the syndromes along.
pub(crate) fn take_out_erased(logs: &Logs, erasures: &[u8], syndromes: &mut [u8])
    requires { (length erasures.now ≤ 255) × (0 < length syndromes.old) }
    ensures { (i : ℕ)
        → at syndromes.new i
        ≡ without_marked (erased_place erasures.now) (length erasures.now)
        (at syndromes.old) i }
{
    for (i, mark) in erasures.iter().enumerate() {
        if *mark == 1 {
            let x = logs.alpha_power((erasures.len() - 1 - i) as u8);
            crate::mend::take_out(logs, syndromes, x);
        }
    }
}
