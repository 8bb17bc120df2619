//! How a pass takes a turn, and how it sees the length.
ghost use Rattle.std.specs.Prelude.{◌≡◌, ◌<◌, ◌≤◌, ◌+◌, ◌^◌, ℕ, [], ◌∷◌, Some, None, length, vec_capacity};
ghost use Rattle.gw_base.specs.Facts.{AreSound, WhereTold};
ghost use Rattle.turn_cell.specs.Cell.{IsPassOf, IsResting, begun, knowledge, known_at, made_by};
ghost use Rattle.turn_cell.specs.Knowing.{Saw, standing};
ghost use Rattle.gw_base.specs.Owes.{Owes};
ghost use Rattle.turn_cell.specs.Passes.{FoundInPlace, IsOwnSession, Took, TookMore};
ghost use Rattle.turn_cell.specs.Rule.{found_at, seat};
ghost use Rattle.turn_cell.specs.Steps.{Did, Takes};
ghost use Rattle.turn_cell.specs.Taking.{HasCome, HasTaken, IsSettled};
ghost use Rattle.turn_cell.specs.declared.knowing.Stage.TheVariants.{Holding, Waiting};

use crate::cell::{DRAWN, LENGTH, Pass, Place, SERVED, TurnCell};
use crate::rule::{Call, Draw, Leave, Look, Named, Origin, Settle};
use crate::turn::{Turn, TurnFor, Turns};
use gw_base::Counted;
use std::marker::Brand;
use std::sync::Wait;
use std::sync::atomic::Ordering;
use std::thread;

// Tickets end here: who would draw a later one waits for ever.
const LAST_TICKET: u64 = 1 << 62;

// How often a pass looks whether its turn has come before it sleeps.
const LOOKS: u32 = 512;

impl<V: Counted> TurnCell<V> {
    // Draws the next ticket.
    fn draw<R: Wait>(&self, rt: &R, place: &mut Place<V>) -> u64
        requires own { place.old.table_id ≡ self.now.table.shared.table_id }
        requires rests { IsResting place.old (known_at place.old) }
        ensures same { place.new.table_id ≡ place.old.table_id }
        ensures ticket { result < 2 ^ 62 }
        ensures waits { place.new.me ≡ (seat (Waiting result) (known_at place.old ∷ []), []) }
    {
        for _ in rt.forever() {
            let next = self.table.shared.peek(DRAWN);
            if next < LAST_TICKET {
                let found = self
                    .table
                    .shared
                    .compare_exchange::<Draw>(place, DRAWN, next, next + 1);
                if found == next {
                    return next;
                }
            }
            thread::yield_now();
        }
        unreachable!()
    }

    // Lets a pass wait that has looked so often, and found the serving word so: it sleeps in the end, until that word
    // changes. It counts one look more, and begins anew once it has slept.
    fn look_away<R: Wait>(&self, rt: &R, serves: u64, looks: u32) -> u32 {
        if looks < LOOKS {
            thread::yield_now();
            return looks + 1;
        }
        let _before = self.sleepers.fetch_add(1, Ordering::SeqCst);
        self.table
            .shared
            .park(rt, SERVED, (serves & 0xffff_ffff) as u32);
        let _before = self.sleepers.fetch_sub(1, Ordering::SeqCst);
        0
    }

    // Wakes those who sleep until the serving word changes. Who is about to sleep has said so before it compares the
    // word.
    fn wake(&self) {
        if self.sleepers.load(Ordering::SeqCst) > 0 {
            self.table.shared.wake_all(SERVED);
        }
    }

    // Waits until it is this ticket's turn, and takes the value.
    fn wait<J: Origin, R: Wait>(&self, rt: &R, place: &mut Place<V>, ticket: u64)
        requires own { place.old.table_id ≡ self.now.table.shared.table_id }
        requires origin { (J.made ≡ made_by self.now) × (J.start ≡ V.facts (begun self.now)) }
        requires waits { place.old.me ≡ (seat (Waiting ticket) (known_at place.old ∷ []), []) }
        ensures same { place.new.table_id ≡ place.old.table_id }
        ensures takes { HasCome V.facts V.told J.made J.start ticket place.new.me
            × (known_at place.new ≡ known_at place.old) }
    {
        let mut looks = 0;
        for _ in rt.forever() {
            let serves = self.table.shared.load::<Call<J>>(place, SERVED);
            if serves == ticket {
                return;
            }
            looks = self.look_away(rt, serves, looks);
        }
        unreachable!()
    }

    // Raises the length word, with the value as the turn has left it.
    fn settle<J: Named<T, V, T::Answer>, T: Turn<V>>(
        &self,
        place: &mut Place<V>,
        ticket: u64,
        left: V,
        length: u64,
        answer: &T::Answer,
    )
        requires own { place.old.table_id ≡ self.now.table.shared.table_id }
        requires holds { place.old.me
            ≡ (
              seat (Holding ticket (standing (found_at place.old.me.0.stage))) (known_at place.old ∷ []),
              (0, None) ∷ [],
            ) }
        requires length { length ≡ (V.facts left).length }
        requires sound { AreSound V.told (V.facts left) }
        requires owes { Owes V.told (found_at place.old.me.0.stage) (V.facts left) }
        requires session { (turn : T) → J.turn ≡ Some turn → IsOwnSession (T.session turn) (known_at place.old) }
        requires answer { J.answer ≡ Some answer.now }
        requires did { Did V.facts V.told T.session T.does J.turn J.value J.answer
            (found_at place.old.me.0.stage) left }
        ensures same { place.new.table_id ≡ place.old.table_id }
        ensures settles { IsSettled V.facts V.told T.session T.does J.turn J.value J.answer
            ticket (found_at place.old.me.0.stage) (known_at place.old) left place.new.me }
    {
        let _ = answer;
        match self.table.shared.exchange(place, 0, Some(left)) {
            None => {}
            Some(_) => unreachable!(),
        }
        self.table
            .shared
            .store::<Settle<T, J>>(place, LENGTH, length);
    }

    // Takes the turn, with the value in hand.
    fn perform<J: Named<T, V, T::Answer>, T: Turn<V>>(
        &self,
        place: &mut Place<V>,
        ticket: u64,
        mut value: V,
        turn: T,
    ) -> T::Answer
        requires own { place.old.table_id ≡ self.now.table.shared.table_id }
        requires named { (J.turn ≡ Some turn) × (J.value ≡ Some value) }
        requires holds { place.old.me
            ≡ (seat (Holding ticket (standing (V.facts value))) (known_at place.old ∷ []), (0, None) ∷ []) }
        requires session { IsOwnSession (T.session turn) (known_at place.old) }
        ensures same { place.new.table_id ≡ place.old.table_id }
        ensures took { HasTaken V.facts V.told (T.session turn) (T.does turn)
            ticket value (known_at place.old) result place.new.me }
    {
        let answer = turn.run(&mut value);
        let length = value.length();
        self.settle::<Brand, T>(place, ticket, value, length, &answer);
        answer
    }

    // Takes a turn, with the value in the slot that the pass has. The pass has it still, for a turn more.
    fn turn_at<T: Turn<V>>(&self, place: &mut Place<V>, ticket: u64, turn: T) -> T::Answer
        requires own { place.old.table_id ≡ self.now.table.shared.table_id }
        requires comes { HasCome V.facts V.told (made_by self.now) (V.facts (begun self.now)) ticket place.old.me }
        requires session { IsOwnSession (T.session turn) (known_at place.old) }
        ensures same { place.new.table_id ≡ place.old.table_id }
        ensures took { Took V.told V.facts (T.session turn) (T.does turn)
            (known_at place.old) result (known_at place.new) }
        ensures placed { WhereTold V.told (FoundInPlace (made_by self.now) (V.facts (begun self.now))
            (known_at place.old) (known_at place.new)) }
        ensures comes { HasCome V.facts V.told (made_by self.now) (V.facts (begun self.now)) ticket place.new.me }
    {
        let Some(value) = self.table.shared.exchange(place, 0, None) else {
            unreachable!()
        };
        self.perform::<Brand, T>(place, ticket, value, turn)
    }

    // Takes a turn for each of these items, with the value in the slot that the pass has.
    fn turns_at<I, T: Turns<V, I>>(
        &self,
        place: &mut Place<V>,
        ticket: u64,
        turns: &T,
        items: &[I],
        answers: &mut Vec<T::Answer>,
    )
        requires own { place.old.table_id ≡ self.now.table.shared.table_id }
        requires comes { HasCome V.facts V.told (made_by self.now) (V.facts (begun self.now)) ticket place.old.me }
        requires session { IsOwnSession (T.session turns.now) (known_at place.old) }
        requires room { length answers.old.items + length items.now ≤ vec_capacity answers.old }
        ensures same { place.new.table_id ≡ place.old.table_id }
        ensures comes { HasCome V.facts V.told (made_by self.now) (V.facts (begun self.now)) ticket place.new.me }
        ensures took { TookMore V.told V.facts (made_by self.now) (V.facts (begun self.now)) (T.session turns.now)
            (T.does turns.now) items.now answers.old.items answers.new.items (known_at place.old)
            (known_at place.new) }
        ensures capacity { vec_capacity answers.new ≡ vec_capacity answers.old }
    {
        for item in items {
            let answer = self.turn_at(place, ticket, TurnFor { turns, item });
            answers.push_reserved(answer);
        }
    }

    // Gives the ticket up, and the value back.
    fn leave(&self, place: &mut Place<V>, ticket: u64)
        requires own { place.old.table_id ≡ self.now.table.shared.table_id }
        requires ticket { ticket < 2 ^ 62 }
        requires comes { HasCome V.facts V.told (made_by self.now) (V.facts (begun self.now)) ticket place.old.me }
        ensures same { place.new.table_id ≡ place.old.table_id }
        ensures rests { IsResting place.new (known_at place.old) }
    {
        self.table.shared.store::<Leave>(place, SERVED, ticket + 1);
        self.wake();
    }

    /// Waits for its turn, and takes it. Turns come in the order in which they were asked for. Where its turn is long
    /// in coming, the thread sleeps. It takes no memory.
    pub fn with<T: Turn<V>, R: Wait>(&self, rt: &R, pass: Pass, turn: T) -> (T::Answer, Pass)
        requires own { IsPassOf self.now pass }
        requires session { IsOwnSession (T.session turn) (knowledge pass) }
        ensures own { IsPassOf self.now result.1 }
        ensures took { Took V.told V.facts (T.session turn) (T.does turn)
            (knowledge pass) result.0 (knowledge result.1) }
        ensures placed { WhereTold V.told (FoundInPlace (made_by self.now) (V.facts (begun self.now))
            (knowledge pass) (knowledge result.1)) }
    {
        let mut place = pass.into_place();
        let ticket = self.draw(rt, &mut place);
        self.wait::<Brand, R>(rt, &mut place, ticket);
        let answer = self.turn_at(&mut place, ticket, turn);
        self.leave(&mut place, ticket);
        (answer, Pass::of(place))
    }

    /// Waits for its turn once, and takes a turn for each of these items, one behind the other. Nobody else has a turn
    /// between them. The answers stand behind those in the list then, which has room for them. It takes no memory.
    pub fn with_each<I, T: Turns<V, I>, R: Wait>(
        &self,
        rt: &R,
        pass: Pass,
        turns: &T,
        items: &[I],
        answers: &mut Vec<T::Answer>,
    ) -> Pass
        requires own { IsPassOf self.now pass }
        requires session { IsOwnSession (T.session turns.now) (knowledge pass) }
        requires room { length answers.old.items + length items.now ≤ vec_capacity answers.old }
        ensures own { IsPassOf self.now result }
        ensures took { TookMore V.told V.facts (made_by self.now) (V.facts (begun self.now)) (T.session turns.now)
            (T.does turns.now) items.now answers.old.items answers.new.items (knowledge pass) (knowledge result) }
        ensures capacity { vec_capacity answers.new ≡ vec_capacity answers.old }
    {
        let mut place = pass.into_place();
        let ticket = self.draw(rt, &mut place);
        self.wait::<Brand, R>(rt, &mut place, ticket);
        self.turns_at(&mut place, ticket, turns, items, answers);
        self.leave(&mut place, ticket);
        Pass::of(place)
    }

    /// The length that never falls, as some turn left it. It waits for nobody, and takes no memory.
    pub fn seen(&self, pass: Pass) -> (u64, Pass)
        requires own { IsPassOf self.now pass }
        ensures own { IsPassOf self.now result.1 }
        ensures saw { Saw V.told result.0 (knowledge pass) (knowledge result.1) }
    {
        let mut place = pass.into_place();
        let length = self.table.shared.load::<Look>(&mut place, LENGTH);
        (length, Pass::of(place))
    }
}
