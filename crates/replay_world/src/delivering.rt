// Messages of a replay that come.
ghost use Rattle.std.specs.Prelude.{◌≡◌, ◌∷◌, [], IfOk, OnOk, None, map};
ghost use Rattle.once_core.specs.Turn.{refusal_of};
ghost use Rattle.once_core.specs.declared.event.Event.TheVariants as event;
ghost use Rattle.replay_world.specs.Does.{DoesAll, DoesOrEnds, Makes};
ghost use Rattle.replay_world.specs.Lines.{delivers, lot_steps, mixed_steps};
ghost use Rattle.replay_world.specs.Receiving.{IsReceiver, WereSent, receiver_of};
ghost use Rattle.replay_world.specs.Sending.{passed};
ghost use Rattle.replay_world.specs.Stands.{Stands};
ghost use Rattle.replay_world.specs.Steps.{Plays};
ghost use Rattle.replay_world.specs.Value.{ReplayValue};
ghost use Rattle.world_script.specs.Sample.{seeded};

use crate::gateway_lines::index_of;
use crate::replay::Replay;
use gw_base::{NoMemory, Octets};
use once_core::Message;
use rand_core::SeedableRng;
use rand_core::utils::NextWord;
use rand_pcg::Pcg32;
use std::alloc::Global;

/// The gateway or the node in this place, to which a message goes.
#[derive(Clone, Copy)]
pub(crate) enum Receiver {
    Gateway(u8),
    Node(u8),
}

impl Replay {
    /// A message comes; whether the line goes on.
    pub(crate) fn deliver(
        &mut self,
        alloc: Global,
        number: u64,
        out: &mut Octets,
    ) -> Result<bool, NoMemory>
        ensures { (v : ReplayValue) → Stands v self.old →
            refusal_of v.world (event.Deliver number) ≡ None → IfOk result
            (DoesOrEnds v (Plays (event.Deliver number)) out.old
            out.new self.new) }
    {
        self.pass(number);
        match self.receiver(number) {
            Some(Receiver::Gateway(place)) => self.deliver_to_gateway(alloc, place, number, out),
            Some(Receiver::Node(place)) => {
                self.deliver_to_node(alloc, place, number, out)?;
                Ok(true)
            }
            None => Ok(true),
        }
    }

    // A message waits no more.
    fn pass(&mut self, number: u64)
        ensures { (v : ReplayValue) → Stands v self.old → Stands (passed number v) self.new }
    {
        // The clause of `len` says that no number waits twice.
        let _count = self.waiting.len();
        self.waiting.shift_remove(&number);
    }

    // Where the message with this number goes.
    fn receiver(&self, number: u64) -> Option<Receiver>
        ensures { (v : ReplayValue) → Stands (passed number v) self.now →
            refusal_of v.world (event.Deliver number) ≡ None → IsReceiver v number result }
    {
        match self.messages.get(index_of(number)) {
            Some(message) => Some(receiver_of(message)),
            None => None,
        }
    }

    /// Each waiting message comes, in order.
    pub(crate) fn flow(&mut self, alloc: Global, out: &mut Octets) -> Result<(), NoMemory>
        ensures { (v : ReplayValue) → Stands v self.old → OnOk result
            (Makes v (map delivers v.waiting) out.old out.new
            self.new) }
    {
        let numbers = self.waiting.as_slice().to_vec(alloc)?;
        self.deliver_all(alloc, &numbers, out)
    }

    // These messages come, in order.
    fn deliver_all(
        &mut self,
        alloc: Global,
        numbers: &[u64],
        out: &mut Octets,
    ) -> Result<(), NoMemory>
        ensures { (v : ReplayValue) → Stands v self.old → WereSent v numbers.now →
            OnOk result (Makes v (map delivers numbers.now) out.old out.new self.new) }
    {
        for number in numbers {
            let goes_on = self.deliver(alloc, *number, out)?;
            if !goes_on {
                return Ok(());
            }
        }
        Ok(())
    }

    /// Each waiting message is lost, comes twice, waits on or comes, by a word.
    pub(crate) fn mix(&mut self, alloc: Global, seed: u64, out: &mut Octets) -> Result<(), NoMemory>
        ensures { (v : ReplayValue) → Stands v self.old → OnOk result
            (Makes v (mixed_steps (seeded seed) v.waiting) out.old
            out.new self.new) }
    {
        let numbers = self.waiting.as_slice().to_vec(alloc)?;
        let rng = Pcg32::seed_from_u64(seed);
        self.draw_all(alloc, rng, &numbers, out)
    }

    // The same of these messages, by the words of a generator.
    fn draw_all(
        &mut self,
        alloc: Global,
        rng: Pcg32,
        numbers: &[u64],
        out: &mut Octets,
    ) -> Result<(), NoMemory>
        ensures { (v : ReplayValue) → Stands v self.old → WereSent v numbers.now →
            OnOk result (Makes v (mixed_steps rng numbers.now) out.old out.new self.new) }
    {
        let mut rng = rng;
        for number in numbers {
            let word = rng.next_word();
            let goes_on = self.draw(alloc, word % 8, *number, out)?;
            if !goes_on {
                return Ok(());
            }
        }
        Ok(())
    }

    /// A waiting message by its lot; whether the line goes on.
    fn draw(
        &mut self,
        alloc: Global,
        lot: u32,
        number: u64,
        out: &mut Octets,
    ) -> Result<bool, NoMemory>
        ensures { (v : ReplayValue) → Stands v self.old →
            refusal_of v.world (event.Deliver number) ≡ None → IfOk result
            (DoesAll v (lot_steps lot number) out.old out.new
            self.new) }
    {
        if lot == 0 {
            self.pass(number);
            return Ok(true);
        }
        if lot == 1 {
            return self.deliver_twice(alloc, number, out);
        }
        if lot == 2 {
            return Ok(true);
        }
        self.deliver(alloc, number, out)
    }

    // A message comes, and comes again.
    fn deliver_twice(
        &mut self,
        alloc: Global,
        number: u64,
        out: &mut Octets,
    ) -> Result<bool, NoMemory>
        ensures { (v : ReplayValue) → Stands v self.old →
            refusal_of v.world (event.Deliver number) ≡ None → IfOk result
            (DoesAll v (delivers number ∷ delivers number ∷ []) out.old out.new self.new) }
    {
        let goes_on = self.deliver(alloc, number, out)?;
        if !goes_on {
            return Ok(false);
        }
        self.deliver(alloc, number, out)
    }
}

/// Where a message goes.
fn receiver_of(message: &Message) -> Receiver
    ensures { result ≡ receiver_of message.now }
{
    if message.to_gateway {
        Receiver::Gateway(message.gateway)
    } else {
        Receiver::Node(message.node)
    }
}
