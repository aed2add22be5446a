// A set that is being collected from words in any order: a word for which a lent table has a bit is marked there, and any other joins a
// rising list at the front of lent words. So each costs one look, and the marks, gathered at the end (`index_set::gather`), come in order.
ghost use Rattle.index_set.specs.Marked.{set_words, Added, AddedAll};

// x joins the set.
pub fn add(marks: &mut [u64], out: &mut [u32], n: usize, x: u32) -> Option<usize>
    ensures { let before = set_words marks.old out.old in
        let after = set_words marks.new out.new in
        Added x n before after result }
{
    if super::add(marks, x) {
        return Some(n);
    }
    word_set::insert(out, n, x)
}

// Every word of `more` joins the set, until one finds no room.
pub fn extend(marks: &mut [u64], out: &mut [u32], n: usize, more: &[u32]) -> Option<usize>
    ensures { let before = set_words marks.old out.old in
        let after = set_words marks.new out.new in
        AddedAll more.now n before after result }
{
    let mut held = n;
    for word in more {
        held = add(marks, out, held, *word)?;
    }
    Some(held)
}
