//! Contexts from C, which have any number of words, as the words that a run is given.
//!
//! A caller may be older or newer than the library: as with the attributes of bpf(2), a word that it does not have is zero, and one that
//! the library does not know has to be zero.

ghost use Rattle.std.specs.Prelude.{◌≡◌, ◌≢◌, ◌*◌, ◌/◌, ◌%◌, ◌≤◌, length, true, is_some, nat_eq, IfOk, IfErr, IfSome};
ghost use Rattle.std.specs.Cow.{cow_slice_items};
ghost use Rattle.words.specs.Context.{given_words};
ghost use Rattle.bpfhost_c.specs.Contexts.{fitted, fitted_all, has_only_known_words, have_known_words, contexts_of, contexts_code};
ghost use Rattle.bpfhost_c.specs.declared.codes.TheConstants.{DONE, ERR_NO_MEMORY};

use crate::codes::{ERR_NO_MEMORY, ERR_SIZE, ERR_TOO_BIG};
use host_core::GIVEN_WORDS;
use std::alloc::{AllocError, Global};
use std::borrow::CowSlice;

/// `words` as contexts of `GIVEN_WORDS` (ten) words each, one after another, without a copy; `None` if the last one is cut off (`some`). A
/// run is given ten words from outside: all words of its context but the first, the packet's length. So each context is given as it is:
/// `fitted_all`, which gives a short context zeros and leaves out the later words of a long one, changes none (`contexts`). `known`: no
/// context has a word other than 0 after its first ten (`have_known_words`), since it has no further word. The caller, `given_contexts`,
/// promises this of the contexts that it returns.
#[tactic(auto, using(crate::proofs::Given::as_given, crate::proofs::Given::all_known))]
fn as_given(words: &[u32]) -> Option<&[[u32; GIVEN_WORDS]]>
    ensures some { is_some result ≡ nat_eq (length words.now % given_words) 0 }
    ensures contexts { IfSome result (λ contexts. contexts.now
        ≡ fitted_all given_words (length words.now / given_words) words.now) }
    ensures known { have_known_words given_words (length words.now / given_words) words.now ≡ true }
{
    let (contexts, rest) = words.as_chunks::<GIVEN_WORDS>();
    if !rest.is_empty() {
        return None;
    }
    Some(contexts)
}

/// The words of one context from C as a run is given them (`fitted`): the first `GIVEN_WORDS` words, and 0 for each of these that a shorter
/// context does not have. Later words are left out, whatever they are. No `requires` demands that they are 0: before this call,
/// `copied_contexts` refuses a context in which one of them is not (`ERR_TOO_BIG`).
fn fit(words: &[u32]) -> [u32; GIVEN_WORDS]
    ensures { result ≡ fitted words.now }
{
    let mut context = [0; GIVEN_WORDS];
    let count = words.len().min(GIVEN_WORDS);
    context[..count].copy_from_slice(&words[..count]);
    context
}

/// Copies of the first `count` contexts in `words`, which has `size` words for each, one context after another. A copy has the
/// `GIVEN_WORDS` words that a run is given (`fit`): the first words of the context, and zeros for those that the context does not have.
/// Words after them are left out: `copied_contexts`, the caller, has tested that they are zero. The caller counts only whole contexts, so
/// `words` has all of them (the precondition). `AllocError`: out of memory.
#[tactic(auto, using(crate::proofs::Loops::fitted_more, crate::proofs::Loops::room_step))]
fn fit_all(
    alloc: Global,
    words: &[u32],
    size: usize,
    count: usize,
) -> Result<Vec<[u32; GIVEN_WORDS]>, AllocError>
    requires { count * size ≤ length words.now }
    ensures { IfOk result (λ contexts. contexts.items ≡ fitted_all size count words.now) }
{
    let mut contexts = Vec::with_capacity(alloc, count)?;
    let mut rest = words;
    for _ in 0..count {
        let (context, after) = rest.split_at(size);
        contexts.push(fit(context))?;
        rest = after;
    }
    Ok(contexts)
}

/// Whether all words of one context from C after its first ten (`GIVEN_WORDS`) are 0; true for a context with at most ten words. A run is
/// given only the ten. Words after them, which a newer caller may have, are not known to the library. So that it ignores only zeros, a
/// context with another word there is rejected (`ERR_TOO_BIG`).
fn has_only_known_words(words: &[u32]) -> bool
    ensures { result ≡ has_only_known_words words.now }
{
    if words.len() <= GIVEN_WORDS {
        return true;
    }
    let more = &words[GIVEN_WORDS..];
    for word in more {
        if *word != 0 {
            return false;
        }
    }
    true
}

/// Whether all words after the first `GIVEN_WORDS` are 0 in each of the first `count` contexts in `words`, which has `size` words for each,
/// one context after another. A run is given only the first `GIVEN_WORDS` words of a context. A newer caller may have more; what these mean
/// is not known to the library, so if one of them is not 0, the call from C returns `ERR_TOO_BIG`. The caller counts only whole contexts,
/// so `words` has all of them, as the precondition requires.
#[tactic(auto, using(crate::proofs::Loops::known_step, crate::proofs::Loops::room_step))]
fn have_only_known_words(words: &[u32], size: usize, count: usize) -> bool
    requires { count * size ≤ length words.now }
    ensures { result ≡ have_known_words size count words.now }
{
    let mut rest = words;
    for _ in 0..count {
        let (context, after) = rest.split_at(size);
        if !has_only_known_words(context) {
            return false;
        }
        rest = after;
    }
    true
}

/// Copies of the contexts in `words`, of `size` words each, one after another (`contexts`). A copy has the words that a run is given: the
/// first ten (`GIVEN_WORDS`) of the context, and zeros for those that it does not have. `given_contexts` calls this only if `size` is not
/// `GIVEN_WORDS`: contexts of that size need no copy.
///
/// `Err` is the code that C gets: `ERR_SIZE` if `size` is 0 or the last context is cut off; else `ERR_TOO_BIG` if a context has a word
/// other than 0 after its first `GIVEN_WORDS`; else `ERR_NO_MEMORY` if out of memory. `contexts_code` is the code by `size` and `words`,
/// without regard to memory: `ERR_SIZE`, `ERR_TOO_BIG`, or `DONE` if neither applies. If copies are returned, it is `DONE` (`known`). By
/// `code` it is also `DONE` if the error is `ERR_NO_MEMORY`; any other error equals it; and no error is `DONE`.
fn copied_contexts(
    alloc: Global,
    words: &[u32],
    size: usize,
) -> Result<Vec<[u32; GIVEN_WORDS]>, i32>
    ensures contexts { IfOk result (λ contexts. contexts.items ≡ contexts_of size words.now) }
    ensures known { IfOk result (λ contexts. contexts_code size words.now ≡ DONE) }
    ensures code { IfErr result (λ code. (code ≢ DONE)
        × (code ≢ ERR_NO_MEMORY → code ≡ contexts_code size words.now)
        × (code ≡ ERR_NO_MEMORY → contexts_code size words.now ≡ DONE)) }
{
    if size == 0 || words.len() % size != 0 {
        return Err(ERR_SIZE);
    }
    let count = words.len() / size;
    if !have_only_known_words(words, size, count) {
        return Err(ERR_TOO_BIG);
    }
    match fit_all(alloc, words, size, count) {
        Ok(contexts) => Ok(contexts),
        Err(_) => Err(ERR_NO_MEMORY),
    }
}

/// The contexts in `words`, of `size` words each and one after another, as a run is given them: the first `GIVEN_WORDS` words of each, and
/// 0 for each word that it does not have (`contexts`). If `size` is `GIVEN_WORDS`, the words are not copied.
///
/// `Err` is the code that C gets: `ERR_SIZE` if `size` is 0 or the last context is cut off, else `ERR_TOO_BIG` if a context has a word
/// other than 0 after its first `GIVEN_WORDS`, else `ERR_NO_MEMORY` if out of memory. `contexts_code` is the code for `size` and `words` if
/// memory suffices: one of the first two, or `DONE` if neither applies. It is `DONE` if contexts are returned (`known`). By `code` an error
/// is never `DONE`. If it is `ERR_NO_MEMORY`, `contexts_code` is `DONE`; any other error is `contexts_code`.
pub(crate) fn given_contexts(
    alloc: Global,
    words: &[u32],
    size: usize,
) -> Result<CowSlice<'_, [u32; GIVEN_WORDS]>, i32>
    ensures contexts { IfOk result (λ contexts. cow_slice_items contexts
        ≡ contexts_of size words.now) }
    ensures known { IfOk result (λ contexts. contexts_code size words.now ≡ DONE) }
    ensures code { IfErr result (λ code. (code ≢ DONE)
        × (code ≢ ERR_NO_MEMORY → code ≡ contexts_code size words.now)
        × (code ≡ ERR_NO_MEMORY → contexts_code size words.now ≡ DONE)) }
{
    if size == GIVEN_WORDS {
        return match as_given(words) {
            Some(contexts) => Ok(CowSlice::Borrowed(contexts)),
            None => Err(ERR_SIZE),
        };
    }
    match copied_contexts(alloc, words, size) {
        Ok(contexts) => Ok(CowSlice::Owned(contexts)),
        Err(code) => Err(code),
    }
}
