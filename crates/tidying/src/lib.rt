// Tidying (document 01, 'Tidying'; `normalize` of the Rust): a tree's records, written again.
//
// A group's items are tidied one after another behind a place that is left for the group's own record. An item that is dropped is
// written over; where a record goes and its items stay, they move up over it.
#![tactic(auto)]

ghost use Rattle.std.specs.Prelude.{◌≡◌, ◌++◌, ◌+◌, ◌-◌, ◌*◌, ◌≤◌, length, drop};
ghost use Rattle.particle.specs.Occurs.{is_once};
ghost use Rattle.particle.specs.Record.{record_size, max_records, record_at, range_of};
ghost use Rattle.particle.specs.Tree.{size_i, head_of, records};
ghost use Rattle.particle.specs.Rows.{Row, row};
ghost use Rattle.particle.specs.Encode.{encode, Faithful};
ghost use Rattle.tidying.specs.Tidy.{splices, takes_pair, is_tidied};
ghost use Rattle.tidying.specs.Laid.{tidied, Room, Removed, ItemStands, KeepsAfter, KeptStand, Closes, Writes, StartsWith};

use particle::Record;

// The length of the longest tree in bytes: memory is fixed, so there is room for it.
const CAPACITY: usize = particle::RECORD_SIZE * particle::MAX_RECORDS;

// What tidying a tree leaves: how many bytes of it were read, and where its records end in the buffer.
#[derive(Clone, Copy)]
struct Written {
    read: usize,
    end: usize,
}

// A group whose items are tidied: its record and the place for it in the buffer; how many items it keeps, and where their records end,
// which stand after that place.
#[derive(Clone, Copy)]
struct Kept {
    group: Record,
    at: usize,
    count: usize,
    end: usize,
}

// Whether the pair of h is (1,1). Of the record's fields: by `==` two pairs would be made first.
fn once(h: Record) -> bool
    ensures { result ≡ is_once (range_of h) }
{
    h.min == 1 && h.unbounded == 0 && h.max == 1
}

// Whether g is a sequence or choice: the items of others are left as they are.
fn tidies(g: Record) -> bool
    ensures { result ≡ is_tidied (head_of g) }
{
    matches!(g.kind, particle::SEQUENCE | particle::CHOICE)
}

// Whether h is a (1,1) item of the group g's own kind.
fn splices(g: Record, h: Record) -> bool
    ensures { result ≡ splices (head_of g) (head_of h) }
{
    tidies(g) && h.kind == g.kind && once(h)
}

// Whether g is a sequence and h a (1,1) choice.
fn takes_pair(g: Record, h: Record) -> bool
    ensures { result ≡ takes_pair (head_of g) (head_of h) }
{
    g.kind == particle::SEQUENCE && h.kind == particle::CHOICE && once(h)
}

// Moves the bytes between the record at `at` and `end` over that record: answers where they end.
fn remove_record(out: &mut [u8], at: usize, end: usize) -> usize
    requires record_size_bound { at + record_size ≤ end }
    requires end_in_bounds { end ≤ length out.old }
    ensures moved { Removed out.old out.new at end }
    ensures value { result ≡ end - record_size }
{
    out.copy_within(at + particle::RECORD_SIZE..end, at);
    end - particle::RECORD_SIZE
}

impl Kept {
    // Of a tidied item, which stands in out from where those kept end to `end`, what the group keeps is kept too.
    fn keep(&mut self, out: &mut [u8], end: usize)
        requires { ItemStands self.old out.old end }
        ensures { KeepsAfter self.old out.old end self.new out.new }
    {
        let start = self.end;
        let h = particle::record_at(&out[start..]);
        if particle::never(h) {
            return;
        }
        if splices(self.group, h) {
            self.count += usize::from(h.count);
            self.end = remove_record(out, start, end);
        } else {
            self.count += 1;
            self.end = end;
        }
    }

    // The group, closed over the items that it keeps: answers where it ends.
    fn close(self, out: &mut [u8]) -> usize
        requires { KeptStand self out.old }
        ensures { Closes self out.old out.new result }
    {
        if self.count == 1 {
            if once(self.group) {
                return remove_record(out, self.at, self.end);
            }
            let first = self.at + particle::RECORD_SIZE;
            let h = particle::record_at(&out[first..]);
            if takes_pair(self.group, h) {
                let choice = Record {
                    unbounded: self.group.unbounded,
                    min: self.group.min,
                    max: self.group.max,
                    ..h
                };
                particle::write_record(out, first, choice);
                return remove_record(out, self.at, self.end);
            }
        }
        let group = Record {
            count: self.count as u16,
            ..self.group
        };
        particle::write_record(out, self.at, group);
        self.end
    }
}

// The first tree of t as it is, into out from `at` on.
// `Room` stays a clause: a struct of t, out and `at` would be made anew, and out lent again, for each item.
fn copy_tree(t: &[u8], out: &mut [u8], at: usize) -> Written
    requires { Room t.now 1 out.old at }
    ensures { Writes t.now out.old out.new at (row 1 t.now) result }
{
    let n = particle::run_len(t);
    let end = at + n;
    out[at..end].copy_from_slice(&t[..n]);
    Written { read: n, end }
}

// The first tree of t, tidied, into out from `at` on. A tree without items is tidy.
#[cycle(tidy)]
fn tidy_tree(t: &[u8], out: &mut [u8], at: usize) -> Written
    requires { Room t.now 1 out.old at }
    ensures { Writes t.now out.old out.new at (tidied t.now) result }
{
    let root = particle::record_at(t);
    if root.count == 0 {
        particle::write_record(out, at, root);
        return Written {
            read: particle::RECORD_SIZE,
            end: at + particle::RECORD_SIZE,
        };
    }
    tidy_items(root, t, out, at)
}

// The same for a tree with the record g: each item is tidied after those that g keeps, and g's record is written last.
#[cycle(tidy)]
fn tidy_items(g: Record, t: &[u8], out: &mut [u8], at: usize) -> Written
    requires g_value { g ≡ record_at t.now }
    requires room { Room t.now 1 out.old at }
    ensures { Writes t.now out.old out.new at (tidied t.now) result }
{
    if !tidies(g) {
        return copy_tree(t, out, at);
    }
    let mut kept = Kept {
        group: g,
        at,
        count: 0,
        end: at + particle::RECORD_SIZE,
    };
    let mut read = particle::RECORD_SIZE;
    let mut rest = particle::items(t);
    for _ in 0..g.count {
        let x = tidy_tree(rest, out, kept.end);
        kept.keep(out, x.end);
        rest = &rest[x.read..];
        read += x.read;
    }
    Written {
        read,
        end: kept.close(out),
    }
}

// The tree of t, tidied, at the start of out: answers how many bytes it takes. Later bytes of out may change.
pub fn normalize_in(t: &[u8], out: &mut [u8]) -> usize
    requires row { Row 1 t.now }
    requires faithful { Faithful (records t.now) }
    requires t_in_bounds { length t.now ≤ length out.old }
    requires out_len_bound { length out.old ≤ record_size * max_records }
    ensures { StartsWith t.now out.new result }
{
    tidy_tree(t, out, 0).end
}

// The tree of t, tidied, at the start of out: answers its record count. Every later byte of out keeps its value. Its clauses, and those of
// `normalize_in`, are the contracts of docs/PROOF.md, so that no type has them.
pub fn normalize(t: &[u8], out: &mut [u8]) -> usize
    requires row { Row 1 t.now }
    requires faithful { Faithful (records t.now) }
    requires t_len_bound { length t.now ≤ record_size * max_records }
    requires t_in_bounds { length t.now ≤ length out.old }
    ensures value { result ≡ size_i (tidied t.now) }
    ensures out_after { out.new ≡ encode (tidied t.now) ++ drop (length (encode (tidied t.now))) out.old }
{
    let mut work = [0u8; CAPACITY];
    let end = normalize_in(t, &mut work);
    out[..end].copy_from_slice(&work[..end]);
    end / particle::RECORD_SIZE
}
