// The history, as words: its entries, the ids that they delete, and writing its end.
ghost use Rattle.std.specs.Prelude.{◌≡◌, ◌<◌, ◌≤◌};
ghost use Rattle.model.specs.Limits.{EDITS};
ghost use Rattle.edits.specs.History.{fields, entry, none, ending, takes, deleted_by};

use super::Entry;

// The words of an entry.
const FIELDS: usize = 6;

impl Entry {
    fn takes(self, id: u32) -> bool
        ensures { result ≡ takes self id }
    {
        self.kind == super::DELETE && self.id == id
    }

    fn fields(self) -> [u32; FIELDS]
        ensures { result ≡ fields self }
    {
        [self.kind, self.at, self.to, self.id, self.out, self.into]
    }
}

#[tactic(auto, unfolding(crate::specs::History::entry))]
pub(crate) fn entry_at(words: &[u32; model::EDIT_WORDS], k: usize) -> Entry
    requires { k < EDITS }
    ensures { result ≡ entry words.now k }
{
    let start = k * FIELDS;
    Entry {
        kind: words[start],
        at: words[start + 1],
        to: words[start + 2],
        id: words[start + 3],
        out: words[start + 4],
        into: words[start + 5],
    }
}

// The words that a host lends, and how many entries of them count.
#[derive(Clone, Copy)]
pub(crate) struct Past<'a> {
    pub(crate) words: &'a [u32; model::EDIT_WORDS],
    pub(crate) count: usize,
    ghost few: { count ≤ EDITS },
}

impl<'a> Past<'a> {
    // Whether an entry deletes this id.
    pub(crate) fn deletes(self, id: u32) -> bool
        ensures { result ≡ deleted_by self.entry.words.now self.entry.count id }
    {
        (0..self.count).any(|k| entry_at(self.words, k).takes(id))
    }

    // The first k entries alone.
    pub(crate) fn first(self, k: usize) -> Past<'a>
        requires { k ≤ EDITS }
        ensures { (result.words ≡ self.entry.words) × (result.count ≡ k) }
    {
        Past {
            words: self.words,
            count: k,
        }
    }
}

// Nothing stays behind the first n entries.
pub(crate) fn cut(words: &mut [u32; model::EDIT_WORDS], n: usize)
    requires { n ≤ EDITS }
    ensures { words.new ≡ ending n none words.old }
{
    words[n * FIELDS..].fill(0);
}

// An entry behind the first n, and nothing behind it.
pub(crate) fn push(words: &mut [u32; model::EDIT_WORDS], n: usize, e: Entry)
    requires { n < EDITS }
    ensures { words.new ≡ ending n e words.old }
{
    cut(words, n);
    let start = n * FIELDS;
    words[start..start + FIELDS].copy_from_slice(&e.fields());
}
