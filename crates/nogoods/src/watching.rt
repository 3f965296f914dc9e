//! Lists of answers by the answers at which they are watched.
ghost use Rattle.std.specs.Prelude.{◌≡◌, ◌∷◌, ◌++◌, ◌<◌, ◌^◌, ℕ, [], Contains, MatchBool, MatchOption, OnErr, OnOk, IfOk, length, slice_get};
ghost use Rattle.formula_tree.specs.Answers.{Answers, Contained};
ghost use Rattle.nogoods.specs.Hits.{IsFirstHit, NoHit};
ghost use Rattle.nogoods.specs.Tracking.{HasAnswer, IsLacking, bucket_of, watchers_in};
ghost use Rattle.nogoods.specs.Turning.{KeepsWatchers, StayAsHits, TurnsOrStays};
ghost use Rattle.nogoods.specs.Joining.{FindsHit, IsPut, Joins, WatchesOn};

use formula_tree::Path;
use plain_lists::{List, NoMemory, fill_to};

/// By the bucket of an answer the numbers of the lists that are watched there. A number may stand twice.
pub(crate) type Watching = Vec<List<usize>>;

// The number of the bucket of an answered test.
fn bucket_of(test: u32, answer: bool) -> usize
    ensures number { result ≡ bucket_of test answer }
    ensures small { result < 2 ^ 40 }
{
    2 * test as usize + if answer { 1 } else { 0 }
}

/// Whether a path answers the test so.
pub(crate) fn has_answer(path: &Path, test: u32, answer: bool) -> bool
    ensures { MatchBool result (HasAnswer path.now test answer) (¬ HasAnswer path.now test answer) }
{
    match path.answer(test) {
        Some(given) => given == answer,
        None => false,
    }
}

/// The index of the first list that the path contains, or none where it contains none.
pub(crate) fn first_contained(lists: &[Path], path: &Path) -> Option<usize>
    ensures { MatchOption result (NoHit lists.now path.now) (IsFirstHit lists.now path.now) }
{
    'each: for i in 0..lists.len() {
        match lacking(&lists[i], path) {
            Some(_) => {}
            None => return Some(i),
        }
    }
    None
}

// An answer of the list that the path lacks, or none where the path contains the list.
fn lacking(answers: &Path, path: &Path) -> Option<(u32, bool)>
    ensures { MatchOption result
        (Contained answers.now path.now) (IsLacking answers.now path.now) }
{
    'answers: for (test, answer) in answers.as_slice() {
        if !has_answer(path, *test, *answer) {
            return Some((*test, *answer));
        }
    }
    None
}

/// Puts a number into the bucket of an answer. Where there is no memory each bucket keeps its numbers.
pub(crate) fn watch(
    watching: &mut Watching,
    test: u32,
    answer: bool,
    number: usize,
) -> Result<(), NoMemory>
    ensures kept { KeepsWatchers watching.old.items watching.new.items }
    ensures ok { OnOk result
        (Contains (watchers_in watching.new.items (bucket_of test answer)) number) }
{
    let bucket = bucket_of(test, answer);
    let nothing = List::new(*watching.allocator());
    fill_to(watching, bucket, nothing)?;
    watching[bucket].push(number)?;
    Ok(())
}

// Puts numbers in the place of those in a bucket. Past the last bucket nothing is kept. It takes no memory.
fn put_watchers(watching: &mut Watching, bucket: usize, watchers: List<usize>)
    ensures { IsPut bucket watchers watching.old.items watching.new.items }
{
    if bucket < watching.len() {
        watching[bucket] = watchers;
    }
}

// The numbers in a bucket.
fn watchers_of(watching: &Watching, bucket: usize) -> Result<Vec<usize>, NoMemory>
    ensures { IfOk result (λ w. w.items ≡ watchers_in watching.now.items bucket) }
{
    match watching.get(bucket) {
        Some(watchers) => Vec::from_slice(*watching.allocator(), watchers.as_slice()),
        None => Ok(Vec::new(*watching.allocator())),
    }
}

// Watches lists anew at answers that the path lacks. The result are the numbers of those that it contains.
fn turn(
    lists: &[Path],
    path: &Path,
    watching: &mut Watching,
    watchers: &[usize],
) -> Result<List<usize>, NoMemory>
    ensures kept { KeepsWatchers watching.old.items watching.new.items }
    ensures turned { IfOk result (λ stay. (number : ℕ) → Contains watchers.now number →
        TurnsOrStays lists.now path.now watching.new.items stay number) }
    ensures stay { IfOk result (StayAsHits lists.now path.now) }
{
    let mut stay = List::new(*watching.allocator());
    'watchers: for number in watchers {
        turn_one(lists, path, watching, *number, &mut stay)?;
    }
    Ok(stay)
}

// Turns one list.
fn turn_one(
    lists: &[Path],
    path: &Path,
    watching: &mut Watching,
    number: usize,
    stay: &mut List<usize>,
) -> Result<(), NoMemory>
    ensures kept { KeepsWatchers watching.old.items watching.new.items }
    ensures stay { (n : ℕ) → Contains stay.old n → Contains stay.new n }
    ensures turned { OnOk result
        (TurnsOrStays lists.now path.now watching.new.items stay.new number) }
    ensures hits { StayAsHits lists.now path.now stay.old → StayAsHits lists.now path.now stay.new }
{
    let Some(answers) = lists.get(number) else {
        return Ok(());
    };
    match lacking(answers, path) {
        Some((test, answer)) => watch(watching, test, answer, number)?,
        None => stay.push(number)?,
    }
    Ok(())
}

// The first number, or none of no numbers.
fn first_of(numbers: &[usize]) -> Option<usize>
    ensures { result ≡ slice_get numbers.now 0 }
{
    numbers.first().copied()
}

/// The path has this answer at its end: the lists that are watched at it are watched at answers that the
/// path lacks, or the path contains them. The result is the number of one that it contains. Where there
/// is no memory all are watched as before.
pub(crate) fn join(
    lists: &[Path],
    path: &Path,
    watching: &mut Watching,
    test: u32,
    answer: bool,
) -> Result<Option<usize>, NoMemory>
    ensures err { OnErr result ((before : Answers) →
        WatchesOn lists.now before before watching.old.items watching.new.items) }
    ensures ok { OnOk result ((before : Answers) → Joins before path.now test answer →
        WatchesOn lists.now before path.now watching.old.items watching.new.items) }
    ensures hit { IfOk result (λ hit. (before : Answers) → Joins before path.now test answer →
        FindsHit lists.now before path.now watching.old.items hit) }
{
    let bucket = bucket_of(test, answer);
    let watchers = watchers_of(watching, bucket)?;
    match turn(lists, path, watching, watchers.as_slice()) {
        Ok(stay) => {
            let hit = first_of(stay.as_slice());
            put_watchers(watching, bucket, stay);
            Ok(hit)
        }
        Err(error) => Err(error),
    }
}
