// Inherited content joined (document 02 §1; `effective_particle` of the Rust): a chain of types, each with content or none, becomes one tree.
//
// Each further tree is the second item of a new (1,1) sequence whose first item is all before it. In preorder the records of these
// sequences come first, and then the trees, one after another as the chain has them.
#![tactic(auto)]

mod layout;

ghost use Rattle.std.specs.Prelude.{◌≡◌, true, ◌+◌, ◌*◌, ◌^◌, ◌%◌, ◌≤◌, ◌<◌, length};
ghost use Rattle.particle.specs.Record.{record_size};
ghost use Rattle.chain.specs.Layout.{levels};
ghost use Rattle.chain.specs.Answer.{chain_ok, levels_refusal, chain_answer, chain_buffer, joined_meaning};
ghost use Rattle.chain.specs.Nested.{Nests, Joining};

use intake::{Fault, Refusal};
use particle::{MAX_RECORDS, RECORD_SIZE};

// The length of the longest tree in bytes: memory is fixed, so there is room for it.
const CAPACITY: usize = RECORD_SIZE * MAX_RECORDS;

// The first refusal of the chain's trees, each as a tree alone. An absent one has none.
fn check_levels(c: &[u8]) -> Result<(), Fault>
    requires { chain_ok c.now ≡ true }
    ensures { result ≡ levels_refusal (levels c.now) }
{
    let mut rest = layout::trees(c);
    for i in 0..layout::level_count(c) {
        let (t, later) = rest.split_at(RECORD_SIZE * layout::count(c, i));
        if !t.is_empty() {
            intake::check_alone(t)?;
        }
        rest = later;
    }
    Ok(())
}

// At the start of out n records of (1,1) sequences of two, and then the trees t: answers where they end.
fn nest(t: &[u8], n: usize, out: &mut [u8]) -> usize
    requires { record_size * n + length t.now ≤ length out.old }
    ensures { Nests n t.now out.new result }
{
    let both = particle::sequence_of(2);
    for i in 0..n {
        particle::write_record(out, RECORD_SIZE * i, both);
    }
    let start = RECORD_SIZE * n;
    let end = start + t.len();
    out[start..end].copy_from_slice(t);
    end
}

// The trees t with n sequences nested about them, at the start of out. Refused, and nothing written, where a limit is broken or out is
// too short.
fn join(t: &[u8], n: usize, out: &mut [u8]) -> Result<usize, Refusal>
    requires record_size_len { length t.now % record_size ≡ 0 }
    requires n_bound { (n < 256) × (length t.now < 2 ^ 32) }
    ensures { Joining n t.now out.old out.new result }
{
    let records = n + particle::record_count(t);
    if MAX_RECORDS < records {
        return Err(Refusal::Limit);
    }
    let mut work = [0u8; CAPACITY];
    let end = nest(t, n, &mut work);
    if intake::check_alone(&work[..end]).is_err() {
        return Err(Refusal::Limit);
    }
    if out.len() < end {
        return Err(Refusal::Buffer);
    }
    out[..end].copy_from_slice(&work[..end]);
    Ok(records)
}

// Joins the levels of the chain into out, from out's start: answers the joined tree's record count, or none where no level has content.
// Every later byte keeps its value; where no level has content, and on every refusal, nothing is written.
pub fn effective_particle(chain: &[u8], out: &mut [u8]) -> Result<Option<usize>, Refusal>
    ensures result_value { joined_meaning result ≡ chain_answer chain.now out.old }
    ensures out_after { out.new ≡ chain_buffer chain.now out.old }
{
    if !layout::chain_ok(chain) {
        return Err(Refusal::Chain);
    }
    check_levels(chain).map_err(Refusal::Derived)?;
    let all = layout::contained(chain);
    if all.trees == 0 {
        return Ok(None);
    }
    let records = join(layout::trees(chain), all.trees - 1, out)?;
    Ok(Some(records))
}
