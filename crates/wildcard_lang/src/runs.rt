//! Where a run of pieces for one item each, behind a piece for any number, first takes what a text has.
//! A long run that fails at its end would be compared whole at each item of the text. So the place of
//! the run and the item of the text at which it failed before are asked first: mostly one of them
//! refuses the next start too, and a text is gone through once. Where starts are refused far into the run,
//! at many places and by many items in turn, more of them are remembered.
ghost use Rattle.std.specs.Prelude.{◌≡◌, ◌≤◌, ◌∷◌, ◌++◌, List, [], true, IsTrue, IfSome, IfNone, IfOk, IfErr, length, take, slice_index_or};
ghost use Rattle.wildcard_lang.specs.declared.piece.Piece.{Piece};
ghost use Rattle.wildcard_lang.specs.declared.piece.Piece.TheVariants.{Many};
ghost use Rattle.wildcard_lang.specs.Matching.{is_many};
ghost use Rattle.wildcard_lang.specs.Runs.{IsRun, IsRefused, IsLeft, IsReached, IsFirst, IsAhead, AreAhead, Refutes, refuses, behind_first};

use crate::guesses::{Guesses, NUMBERS};
use crate::piece::Piece;
use crate::source::Source;
use crate::taken::Taken;

// A place of a run, and the text from the item on that stands there as the run is tried at some start.
#[derive(Clone, Copy)]
pub(crate) struct Probe<S> {
    pub(crate) place: usize,
    pub(crate) ahead: S,
}

// What is asked of a start before the run is compared: the two places of the run that failed last, since
// starts often fail in turn at two, and the item of the text at which the last comparison failed.
#[derive(Clone, Copy)]
pub(crate) struct Probes<S> {
    pub(crate) last_place: Probe<S>,
    pub(crate) older_place: Probe<S>,
    pub(crate) last_item: Probe<S>,
}

// A refusal so many places into the run is far: it is remembered.
const FAR: usize = 16;

// The places of the run at which starts were refused, and the items of the text, by their index.
#[derive(Clone, Copy)]
struct Refusals {
    places: Guesses,
    items: Guesses,
}

// The first start at which a run takes what the text has, and what it leaves.
#[derive(Clone, Copy)]
pub(crate) struct Found<S> {
    pub(crate) start: S,
    pub(crate) behind: S,
}

// How many of the first pieces are for one item each.
fn run_length(pieces: &[Piece]) -> usize
    ensures most { result ≤ length pieces.now }
    ensures run { IsRun (take result pieces.now) }
    ensures next { is_many (slice_index_or pieces.now result Many) ≡ true }
{
    'pieces: for i in 0..pieces.len() {
        if pieces[i].is_many() {
            return i;
        }
    }
    pieces.len()
}

// The first piece, the run behind it, and what is behind the run: nothing, or a piece for any number first.
pub(crate) fn split_run(pieces: &[Piece]) -> Option<(Piece, &[Piece], &[Piece])>
    ensures parts { IfSome result (λ r. pieces.now ≡ r.0 ∷ (r.1.now ++ r.2.now)) }
    ensures run { IfSome result (λ r. IsRun r.1.now) }
    ensures next { IfSome result (λ r. is_many (slice_index_or r.2.now 0 Many) ≡ true) }
    ensures none { IfNone result (pieces.now ≡ []) }
{
    let [first, more @ ..] = pieces else {
        return None;
    };
    let (run, behind) = more.split_at(run_length(more));
    Some((*first, run, behind))
}

// Whether the piece doesn't take the first item of the text, or there is none.
fn is_refused<X: Taken, S: Source<X>>(piece: Piece, text: S) -> bool
    ensures { result ≡ refuses X.taken piece (S.left text) }
{
    let mut rest = text;
    match rest.next_item() {
        None => true,
        Some(x) => !x.is_taken(piece),
    }
}

// The text behind its first item. Behind no item it is empty.
fn next_text<X: Taken, S: Source<X>>(text: S) -> S
    ensures { S.left result ≡ behind_first (S.left text) }
{
    let mut rest = text;
    match rest.next_item() {
        None => text,
        Some(_) => rest,
    }
}

// How far the run takes the text.
fn reach<X: Taken, S: Source<X>>(run: &[Piece], text: S) -> Probe<S>
    requires { IsRun run.now }
    ensures { IsReached X.taken run.now (S.left text) result.place (S.left result.ahead) }
{
    let mut ahead = text;
    'run: for place in 0..run.len() {
        if is_refused::<X, S>(run[place], ahead) {
            return Probe { place, ahead };
        }
        ahead = next_text::<X, S>(ahead);
    }
    Probe {
        place: run.len(),
        ahead,
    }
}

// Whether the run isn't taken where the item stands at the place.
fn is_refuted<X: Taken, S: Source<X>>(run: &[Piece], probe: Probe<S>) -> bool
    requires { IsRun run.now }
    ensures { IsTrue result → Refutes X.taken run.now probe.place (S.left probe.ahead) }
{
    if probe.place >= run.len() {
        return false;
    }
    is_refused::<X, S>(run[probe.place], probe.ahead)
}

// Whether the piece at the place of the run is seen not to take the item that stands there.
fn is_refused_at<X: Taken, S: Source<X>>(run: &[Piece], text: S, place: usize) -> bool
    requires { IsRun run.now }
    ensures { IsTrue result → IsRefused X.taken run.now (S.left text) }
{
    if place >= run.len() {
        return false;
    }
    let Some(x) = text.item_at(place) else {
        return false;
    };
    !x.is_taken(run[place])
}

// Whether one of the places or items at which earlier starts were refused refuses the run at this one too.
#[inline(never)]
fn is_refused_again<X: Taken, S: Source<X>>(
    run: &[Piece],
    text: S,
    index: usize,
    refusals: &mut Refusals,
) -> bool
    requires { IsRun run.now }
    ensures { IsTrue result → IsRefused X.taken run.now (S.left text) }
{
    'guesses: for i in 0..refusals.places.count() {
        if is_refused_at::<X, S>(run, text, refusals.places.get(i)) {
            refusals.places.prefer(i);
            return true;
        }
        let place = refusals.items.get(i).wrapping_sub(index) % NUMBERS;
        if is_refused_at::<X, S>(run, text, place) {
            refusals.items.prefer(i);
            return true;
        }
    }
    false
}

// Remembers where the start of this index was refused. Near refusals alone cost little, and nothing is kept of them.
#[inline(never)]
fn keep_refusal(refusals: &mut Option<Refusals>, place: usize, index: usize) {
    if refusals.is_none() {
        if place < FAR {
            return;
        }
        *refusals = Some(Refusals {
            places: Guesses::none(),
            items: Guesses::none(),
        });
    }
    if let Some(known) = refusals {
        known.places.keep(place);
        known.items.keep(index.wrapping_add(place));
    }
}

// What the run leaves of the text where it takes its first items, or else what refuses it there.
fn take_run<X: Taken, S: Source<X>>(
    run: &[Piece],
    text: S,
    index: usize,
    probes: Probes<S>,
    refusals: &mut Option<Refusals>,
) -> Result<S, Probes<S>>
    requires run { IsRun run.now }
    requires ahead { AreAhead S.left (S.left text) probes }
    ensures behind { IfOk result (λ s. IsLeft X.taken run.now (S.left text) (S.left s)) }
    ensures refused { IfErr result (λ p. IsRefused X.taken run.now (S.left text)) }
    ensures probes { IfErr result (λ p. AreAhead S.left (S.left text) p) }
{
    if is_refuted::<X, S>(run, probes.last_place) {
        return Err(probes);
    }
    if is_refuted::<X, S>(run, probes.last_item) {
        return Err(probes);
    }
    if is_refuted::<X, S>(run, probes.older_place) {
        return Err(probes);
    }
    if let Some(known) = refusals {
        if is_refused_again::<X, S>(run, text, index, known) {
            return Err(probes);
        }
    }
    let reached = reach::<X, S>(run, text);
    if reached.place == run.len() {
        return Ok(reached.ahead);
    }
    keep_refusal(refusals, reached.place, index);
    Err(Probes {
        last_place: reached,
        older_place: probes.last_place,
        last_item: reached,
    })
}

// The place of the run at the next start.
fn moved_place<X: Taken, S: Source<X>>(probe: Probe<S>) -> Probe<S>
    ensures { (x : X) → (t : List X) → IsAhead S.left (x ∷ t) probe → IsAhead S.left t result }
{
    Probe {
        place: probe.place,
        ahead: next_text::<X, S>(probe.ahead),
    }
}

// The places of the run and the item of the text, as they stand at the next start. Where that
// start is behind the item, the places alone are asked.
fn moved_on<X: Taken, S: Source<X>>(probes: Probes<S>) -> Probes<S>
    ensures { (x : X) → (t : List X) → AreAhead S.left (x ∷ t) probes → AreAhead S.left t result }
{
    let last_place = moved_place::<X, S>(probes.last_place);
    let older_place = moved_place::<X, S>(probes.older_place);
    let item = probes.last_item;
    if item.place == 0 {
        return Probes {
            last_place,
            older_place,
            last_item: last_place,
        };
    }
    let last_item = Probe {
        place: item.place - 1,
        ahead: item.ahead,
    };
    Probes {
        last_place,
        older_place,
        last_item,
    }
}

// The first start at which the run takes the text, where all before it is taken by the first piece. At
// each start before it the run fails, whatever stands behind it.
pub(crate) fn first_start<X: Taken, S: Source<X>>(
    first: Piece,
    run: &[Piece],
    text: S,
) -> Option<Found<S>>
    requires many { is_many first ≡ true }
    requires run { IsRun run.now }
    ensures found { IfSome result (IsFirst X.taken S.left first run.now (S.left text)) }
    ensures left { IfSome result (λ f. IsLeft X.taken run.now (S.left f.start) (S.left f.behind)) }
    ensures none { IfNone result (IsRefused X.taken (first ∷ run.now) (S.left text)) }
{
    let here = Probe {
        place: 0,
        ahead: text,
    };
    let mut probes = Probes {
        last_place: here,
        older_place: here,
        last_item: here,
    };
    let mut refusals = None;
    let mut index: usize = 0;
    let mut start = text;
    'starts: loop {
        match take_run::<X, S>(run, start, index, probes, &mut refusals) {
            Ok(behind) => return Some(Found { start, behind }),
            Err(refused) => probes = moved_on::<X, S>(refused),
        }
        let Some(x) = start.next_item() else {
            return None;
        };
        if !x.is_taken(first) {
            return None;
        }
        index = index.wrapping_add(1);
    }
}
