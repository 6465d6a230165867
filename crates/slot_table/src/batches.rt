//! Enters many keys at once, so that the cache lines of their slots are loaded at the same time. A
//! pass is the right to call the table.
ghost use Rattle.std.specs.Prelude.{◌≡◌, ℕ, ◌^◌, ◌<◌, ◌≤◌, true, length};
ghost use Rattle.probe_core.specs.declared.calls.Answer.TheVariants as answer;
ghost use Rattle.slot_table.specs.Batches.{entered, answer_at, AreMade, AreTold};
ghost use Rattle.slot_table.specs.Batches.{IsFullBefore, AreEnteredUntil};
ghost use Rattle.slot_table.specs.Inner.Batches.{look_at, ended, AreLooked, AreChosen, ArePassed};
ghost use Rattle.slot_table.specs.Inner.Batches.{IsPassed};
ghost use Rattle.slot_table.specs.Passes.{IsPassOf, IsAlone, Known};

use crate::passes::Pass;
use crate::tables::SlotTable;
use probe_core::{Answer, Key, ProbeOrder};

/// How many keys are entered together: few enough that the cache lines of their slots stay in the
/// nearest caches until their calls end.
const BLOCK: usize = 128;

/// How many slots of a key are loaded, at most, before any free slot is taken. In a table that is
/// nearly full some keys find their slot only later: their calls then go on one by one.
const ROUNDS: usize = 64;

/// The last load of a slot for a key: the slot's index in the order in which slots are probed
/// (looked at) for the key, and the word found there.
#[derive(Clone, Copy)]
pub(crate) struct Look {
    /// The index of the slot in the key's probe order, from 0.
    pub(crate) index: usize,
    /// The word that was found there.
    pub(crate) word: u64,
}

/// Whether the load `look` found another key than `key`, and there is a further slot to probe.
fn is_passed(key: Key, look: Look, slots: usize) -> bool
    requires { look.index < slots }
    ensures { result ≡ true → IsPassed slots key look }
{
    look.word != 0 && look.word != key.bits() + 1 && look.index + 1 != slots
}

/// Whether the answer is `Full`: no slot was free for the key.
fn is_full(found: Answer) -> bool
    ensures { result ≡ true → found ≡ answer.Full }
{
    match found {
        Answer::Full => true,
        Answer::Number(_) | Answer::Absent => false,
    }
}

/// Sets the answers from the index `start` on to `Absent`.
fn leave_from(answers: &mut [Answer], start: usize)
    ensures length { length answers.new ≡ length answers.old }
    ensures before { (i : ℕ) → i < start → answer_at answers.new i ≡ answer_at answers.old i }
    ensures left { (i : ℕ) → start ≤ i → answer_at answers.new i ≡ answer.Absent }
{
    for i in start..answers.len() {
        answers[i] = Answer::Absent;
    }
}

/// Returns the indices 0 to `BLOCK` - 1, in order: those of all keys of a block.
fn all_places() -> [usize; BLOCK]
    ensures length { length result ≡ BLOCK }
    ensures chosen { (count : ℕ) → count ≤ BLOCK → AreChosen count result count }
{
    let mut places = [0; BLOCK];
    for i in 0..BLOCK {
        places[i] = i;
    }
    places
}

/// Keeps, of the first `count` indices in `left`, those of keys whose last load, in `looks`, found
/// another key and that have a further slot to probe. Moves them to the front of `left`, and
/// returns how many they are. It has no branch that depends on a slot's word. `slots` is the number
/// of slots.
fn keep_passed(
    keys: &[Key],
    looks: &[Look],
    left: &mut [usize],
    count: usize,
    slots: usize,
) -> usize
    requires chosen { AreChosen (length keys.now) left.old count }
    requires count { count ≤ length left.old }
    requires long { length keys.now ≤ length looks.now }
    requires within { (i : ℕ) → i < length keys.now → (look_at looks.now i).index < slots }
    ensures few { result ≤ count }
    ensures length { length left.new ≡ length left.old }
    ensures chosen { AreChosen (length keys.now) left.new result }
    ensures passed { ArePassed slots keys.now looks.now left.new 0 result }
{
    let mut kept = 0;
    for i in 0..count {
        let place = left[i];
        left[kept] = place;
        kept += is_passed(keys[place], looks[place], slots) as usize;
    }
    kept
}

impl<O: ProbeOrder> SlotTable<O> {
    /// Loads the first slot of each key's probe order into `looks`, at the key's index. No load
    /// depends on what an earlier one found, so the loads overlap.
    fn look_first(&self, pass: &mut Pass<O>, keys: &[Key], looks: &mut [Look])
        requires pass { IsPassOf self.now pass.old }
        requires slots { 0 < self.now.slots }
        requires long { length keys.now ≤ length looks.old }
        ensures pass { IsPassOf self.now pass.new }
        ensures length { length looks.new ≡ length looks.old }
        ensures made { AreMade self.now.slots
            (ended self.now.slots (O.place_of self.now.order) keys.now looks.new)
            pass.old pass.new }
        ensures alone { 0 < length keys.now → IsAlone pass.new }
        ensures looked { AreLooked self.now.slots (O.place_of self.now.order)
            pass.new.seen keys.now looks.new (length keys.now) }
    {
        for i in 0..keys.len() {
            looks[i] = self.look(pass, keys[i], 0);
        }
    }

    /// Loads the next slot of each key whose index is among the first `count` of `left`, and sets
    /// its entry of `looks`. The loads overlap, since none depends on another one.
    fn look_again(
        &self,
        pass: &mut Pass<O>,
        keys: &[Key],
        looks: &mut [Look],
        left: &[usize],
        count: usize,
    )
        requires pass { IsPassOf self.now pass.old }
        requires long { length keys.now ≤ length looks.old }
        requires count { count ≤ length left.now }
        requires looked { AreLooked self.now.slots (O.place_of self.now.order)
            pass.old.seen keys.now looks.old (length keys.now) }
        requires chosen { AreChosen (length keys.now) left.now count }
        requires passed { ArePassed self.now.slots keys.now looks.old left.now 0
            count }
        ensures pass { IsPassOf self.now pass.new }
        ensures length { length looks.new ≡ length looks.old }
        ensures made { (first : Known O) → AreMade self.now.slots
            (ended self.now.slots (O.place_of self.now.order) keys.now looks.old)
            first pass.old → AreMade self.now.slots
            (ended self.now.slots (O.place_of self.now.order) keys.now looks.new)
            first pass.new }
        ensures alone { IsAlone pass.old → IsAlone pass.new }
        ensures looked { AreLooked self.now.slots (O.place_of self.now.order)
            pass.new.seen keys.now looks.new (length keys.now) }
    {
        for i in 0..count {
            let place = left[i];
            looks[place] = self.look(pass, keys[place], looks[place].index + 1);
        }
    }

    /// Loads the first slots of all keys of a block, then the second slots of those that found
    /// another key there, and so on, up to `ROUNDS` slots. `looks` gets each key's last load. No
    /// free slot is taken.
    fn look_at_all(&self, pass: &mut Pass<O>, keys: &[Key], looks: &mut [Look])
        requires pass { IsPassOf self.now pass.old }
        requires block { length keys.now ≤ BLOCK }
        requires long { length keys.now ≤ length looks.old }
        ensures pass { IsPassOf self.now pass.new }
        ensures length { length looks.new ≡ length looks.old }
        ensures made { AreMade self.now.slots
            (ended self.now.slots (O.place_of self.now.order) keys.now looks.new)
            pass.old pass.new }
        ensures alone { 0 < length keys.now → IsAlone pass.new }
        ensures looked { AreLooked self.now.slots (O.place_of self.now.order)
            pass.new.seen keys.now looks.new (length keys.now) }
    {
        let slots = self.capacity().slots();
        self.look_first(pass, keys, looks);
        let mut left = all_places();
        let mut count = keys.len();
        for _ in 1..ROUNDS {
            count = keep_passed(keys, looks, &mut left, count, slots);
            if count == 0 {
                break;
            }
            self.look_again(pass, keys, looks, &left, count);
        }
    }

    /// Finishes the entering of the keys, in their order, each from its last load in `looks`, and
    /// sets `answers[i]` to the answer for `keys[i]`. Returns whether no slot was free for some
    /// key. After the first such key, only keys whose last load gave an answer get one; the others
    /// get `Absent` and are not entered.
    fn end_all(
        &self,
        pass: &mut Pass<O>,
        keys: &[Key],
        looks: &[Look],
        answers: &mut [Answer],
    ) -> bool
        requires pass { IsPassOf self.now pass.old }
        requires long { length keys.now ≤ length looks.now }
        requires length { length keys.now ≡ length answers.old }
        requires looked { AreLooked self.now.slots (O.place_of self.now.order)
            pass.old.seen keys.now looks.now (length keys.now) }
        ensures pass { IsPassOf self.now pass.new }
        ensures length { length answers.new ≡ length keys.now }
        ensures made { (first : Known O) → AreMade self.now.slots
            (ended self.now.slots (O.place_of self.now.order) keys.now looks.now)
            first pass.old → AreMade self.now.slots
            (entered keys.now answers.new) first pass.new }
        ensures alone { IsAlone pass.old → IsAlone pass.new }
        ensures told { AreTold self.now.slots pass.new.seen keys.now answers.new }
        ensures until { AreEnteredUntil answers.new (length keys.now) }
        ensures full { result ≡ true → IsFullBefore answers.new (length keys.now) }
    {
        let mut full = false;
        for i in 0..keys.len() {
            let answer = self.go_on(pass, keys[i], looks[i], full);
            answers[i] = answer;
            full = full || is_full(answer);
        }
        full
    }

    /// Enters the keys of a block, at most `BLOCK`, up to the first for which no slot is free, and
    /// those after it that a load had found, and sets `answers[i]` to the answer for `keys[i]`.
    /// Returns whether there is such a key.
    fn enter_block(&self, pass: &mut Pass<O>, keys: &[Key], answers: &mut [Answer]) -> bool
        requires pass { IsPassOf self.now pass.old }
        requires block { length keys.now ≤ BLOCK }
        requires length { length keys.now ≡ length answers.old }
        ensures pass { IsPassOf self.now pass.new }
        ensures made { AreMade self.now.slots (entered keys.now answers.new)
            pass.old pass.new }
        ensures alone { 0 < length keys.now → IsAlone pass.new }
        ensures told { AreTold self.now.slots pass.new.seen keys.now answers.new }
        ensures until { AreEnteredUntil answers.new (length keys.now) }
        ensures full { result ≡ true → IsFullBefore answers.new (length keys.now) }
        ensures length { length answers.new ≡ length keys.now }
    {
        let mut looks = [Look { index: 0, word: 0 }; BLOCK];
        self.look_at_all(pass, keys, &mut looks);
        self.end_all(pass, keys, &looks, answers)
    }

    /// Enters each key by a call of its own, as `enter` does, and sets `answers[i]` to the answer
    /// for `keys[i]`: the key's number (the index of its slot), or `Full` if it had none and none
    /// was free. Other threads may call the table meanwhile. It takes no memory and waits for no
    /// other thread. A key may be in `keys` several times.
    ///
    /// The keys are taken in blocks of 128. In each block, the first slots of all keys are loaded,
    /// then the second slots of those that found another key there, and so on; so the cache lines
    /// of the slots are fetched together. A key that is found by a load has its number then. The
    /// others take a free slot or go on after all loads of their block, in the order of the keys.
    /// So the calls end in another order than the keys have.
    ///
    /// After the first `Full` no key is looked for any more, since each new one would be looked for
    /// in all slots. Later keys of the same block have their numbers if a load had found them. All
    /// other later keys are not entered: their answers are `Absent`, which `enter` never answers.
    ///
    /// `pass` (the right to call the table) must be of this table, and there must be as many
    /// answers as keys. What the answers hold before is not read.
    pub fn enter_all(&self, pass: &mut Pass<O>, keys: &[Key], answers: &mut [Answer])
        requires pass { IsPassOf self.now pass.old }
        requires length { length keys.now ≡ length answers.old }
        ensures pass { IsPassOf self.now pass.new }
        ensures made { AreMade self.now.slots (entered keys.now answers.new)
            pass.old pass.new }
        ensures alone { 0 < length keys.now → IsAlone pass.new }
        ensures told { AreTold self.now.slots pass.new.seen keys.now answers.new }
        ensures until { AreEnteredUntil answers.new (length keys.now) }
        ensures length { length answers.new ≡ length keys.now }
    {
        let mut start = 0;
        let mut full = false;
        while start < keys.len() && !full {
            let end = start + BLOCK.min(keys.len() - start);
            full = self.enter_block(pass, &keys[start..end], &mut answers[start..end]);
            start = end;
        }
        leave_from(answers, start);
    }
}
