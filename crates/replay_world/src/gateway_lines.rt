// What befalls a gateway of a replay. One that isn't there is left alone.
ghost use Rattle.std.specs.Prelude.{◌≡◌, ◌-◌, ◌∷◌, ◌++◌, [], ℕ, IfOk, OnOk, None, true, Option, option_map};
ghost use Rattle.area_disk.specs.Armed.{Armed};
ghost use Rattle.once_core.specs.Turn.{no_running_gateway, refusal_of};
ghost use Rattle.once_core.specs.declared.event.Event.TheVariants as event;
ghost use Rattle.replay_world.specs.Events.{event_asked};
ghost use Rattle.replay_world.specs.Does.{Does, DoesOrEnds, Makes};
ghost use Rattle.replay_world.specs.Lines.{write_steps};
ghost use Rattle.replay_world.specs.Telling.{ending_notices};
ghost use Rattle.replay_world.specs.Notices.{notice_lines};
ghost use Rattle.replay_gateway.specs.Opening.{ArmsAs};
ghost use Rattle.replay_world.specs.Sending.{HasSent, IsTo, SendsDelivered, came_notices, goes_on_after, passed, steps_behind};
ghost use Rattle.replay_world.specs.Stands.{Stands};
ghost use Rattle.replay_world.specs.Steps.{Arms, ArmsShelf, Plays, Writes};
ghost use Rattle.replay_world.specs.Value.{ReplayValue};

use crate::notices::{
    print_down, print_drop, print_expired, print_fault, print_shelf_fault, print_stopped,
};
use crate::replay::Replay;
use area_disk::Plan;
use gw_base::{NoMemory, Octets};
use once_core::world_laws::paths_lead_to_nodes;
use replay_gateway::{Came, Delivery, Ending, GatewayCall, Sent, Wrote};
use std::alloc::Global;

impl Replay {
    /// A gateway's book is asked for this; whether the line goes on.
    pub(crate) fn at_gateway(
        &mut self,
        alloc: Global,
        place: u8,
        call: GatewayCall,
        out: &mut Octets,
    ) -> Result<bool, NoMemory>
        ensures { (v : ReplayValue) (number : ℕ) → Stands v self.old →
            number - 1 ≡ place → no_running_gateway v.world number ≡ None → IfOk result
            (DoesOrEnds v (Plays (event_asked call number)) out.old out.new self.new) }
    {
        let index = usize::from(place);
        if index >= self.gateways.len() {
            return Ok(true);
        }
        let sent = self.gateways[index].ask(alloc, call, self.moment)?;
        self.send_moved(alloc, place, sent, out)
    }

    /// A message that waits no more reaches a gateway; whether the line goes on.
    pub(crate) fn deliver_to_gateway(
        &mut self,
        alloc: Global,
        place: u8,
        number: u64,
        out: &mut Octets,
    ) -> Result<bool, NoMemory>
        ensures { (v : ReplayValue) →
            Stands (passed number v) self.old →
            IsTo v number true place → IfOk result
            (DoesOrEnds v (Plays (event.Deliver number))
            out.old out.new self.new) }
    {
        let (index, at) = (usize::from(place), index_of(number));
        if index >= self.gateways.len() {
            return Ok(true);
        }
        if at >= self.messages.len() {
            return Ok(true);
        }
        let delivery = self.gateways[index].deliver(alloc, &self.messages[at], self.moment)?;
        self.send_delivered(alloc, place, number, delivery, out)
    }

    // What a message made of a gateway is sent and printed; whether the line goes on.
    fn send_delivered(
        &mut self,
        alloc: Global,
        place: u8,
        number: u64,
        delivery: Delivery,
        out: &mut Octets,
    ) -> Result<bool, NoMemory>
        ensures { IfOk result (SendsDelivered place number delivery out.old out.new self.old self.new) }
    {
        let goes_on = self.send_moved(alloc, place, delivery.sent, out)?;
        print_ending(alloc, out, number, delivery.ending)?;
        Ok(goes_on)
    }

    /// A gateway asks all nodes that it has a path to to send elsewhere.
    pub(crate) fn redirect(
        &mut self,
        alloc: Global,
        place: u8,
        cause: u8,
        to: Option<u8>,
        out: &mut Octets,
    ) -> Result<(), NoMemory>
        ensures { (v : ReplayValue) (number : ℕ) (other : Option ℕ) →
            Stands v self.old →
            number - 1 ≡ place → option_map (λ n. n - 1) other ≡ to →
            refusal_of v.world (event.Redirect number cause other) ≡ None →
            OnOk result (Does v
            (Plays (event.Redirect number cause other)) out.old out.new self.new) }
    {
        let index = usize::from(place);
        if index >= self.gateways.len() {
            return Ok(());
        }
        paths_lead_to_nodes();
        let messages = self.gateways[index].redirect(alloc, place, cause, to)?;
        self.send_all(alloc, messages, out)
    }

    /// A gateway is stopped between two calls.
    pub(crate) fn stop(&mut self, alloc: Global, place: u8)
        ensures { (v : ReplayValue) (number : ℕ) → Stands v self.old →
            number - 1 ≡ place → no_running_gateway v.world number ≡ None →
            Does v (Plays (event.Cut number 0)) [] [] self.new }
    {
        let index = usize::from(place);
        if index >= self.gateways.len() {
            return;
        }
        self.gateways[index].stop(alloc);
    }

    /// A gateway that was stopped is opened again.
    pub(crate) fn open(&mut self, alloc: Global, place: u8) -> Result<(), NoMemory>
        ensures { (v : ReplayValue) (number : ℕ) → Stands v self.old →
            number - 1 ≡ place → refusal_of v.world (event.Open number) ≡ None →
            OnOk result (Does v (Plays (event.Open number)) [] []
            self.new) }
    {
        let index = usize::from(place);
        if index >= self.gateways.len() {
            return Ok(());
        }
        self.gateways[index].open(alloc)
    }

    /// This is armed for the calls of a gateway's area.
    pub(crate) fn arm(&mut self, place: u8, plan: Plan)
        ensures { (v : ReplayValue) (number : ℕ) (armed : Armed) → ArmsAs armed plan →
            Stands v self.old →
            number - 1 ≡ place → no_running_gateway v.world number ≡ None →
            Does v (Arms (number - 1) armed) [] [] self.new }
    {
        let index = usize::from(place);
        if index >= self.gateways.len() {
            return;
        }
        self.gateways[index].arm(plan);
    }

    /// This is armed for the calls of a gateway's shelf.
    pub(crate) fn arm_shelf(&mut self, place: u8, plan: Plan)
        ensures { (v : ReplayValue) (number : ℕ) (armed : Armed) → ArmsAs armed plan →
            Stands v self.old →
            number - 1 ≡ place → no_running_gateway v.world number ≡ None →
            Does v (ArmsShelf (number - 1) armed) [] [] self.new }
    {
        let index = usize::from(place);
        if index >= self.gateways.len() {
            return;
        }
        self.gateways[index].arm_shelf(plan);
    }

    /// The items of a gateway's firm entries are written into files. Where its shelf fails that is printed, and where
    /// its shelf stops the gateway is stopped, too.
    pub(crate) fn write_line(
        &mut self,
        alloc: Global,
        place: u8,
        out: &mut Octets,
    ) -> Result<(), NoMemory>
        ensures { (v : ReplayValue) (number : ℕ) → Stands v self.old →
            number - 1 ≡ place → no_running_gateway v.world number ≡ None → OnOk result
            (Makes v (write_steps v number) out.old out.new self.new) }
    {
        let wrote = self.write(alloc, place)?;
        self.end_write(alloc, place, wrote, out)
    }

    /// The items of a gateway's firm entries are written into files.
    pub(crate) fn write(&mut self, alloc: Global, place: u8) -> Result<Wrote, NoMemory>
        ensures writes { (v : ReplayValue) (number : ℕ) → Stands v self.old →
            number - 1 ≡ place → no_running_gateway v.world number ≡ None → OnOk result
            (Does v (Writes (number - 1)) [] [] self.new) }
        ensures came { (v : ReplayValue) (number : ℕ) → Stands v self.old →
            number - 1 ≡ place → no_running_gateway v.world number ≡ None →
            IfOk result (λ wrote. write_steps v number ≡ Writes (number - 1) ∷ steps_behind number wrote) }
    {
        let index = usize::from(place);
        if index >= self.gateways.len() {
            return Ok(Wrote::All);
        }
        self.gateways[index].write(alloc)
    }

    // What came of a write is printed, and a stop of the shelf stops the gateway.
    fn end_write(
        &mut self,
        alloc: Global,
        place: u8,
        wrote: Wrote,
        out: &mut Octets,
    ) -> Result<(), NoMemory>
        ensures { (v : ReplayValue) (number : ℕ) → Stands v self.old →
            number - 1 ≡ place → no_running_gateway v.world number ≡ None → OnOk result
            (Makes v (steps_behind number wrote) out.old out.new self.new) }
    {
        match wrote {
            Wrote::All => Ok(()),
            Wrote::Failed => print_shelf_fault(alloc, out, place),
            Wrote::Stopped => {
                print_stopped(alloc, out, place)?;
                self.stop(alloc, place);
                Ok(())
            }
        }
    }

    // What the area did is printed, and the messages are sent; whether the line goes on.
    fn send_moved(
        &mut self,
        alloc: Global,
        place: u8,
        sent: Sent,
        out: &mut Octets,
    ) -> Result<bool, NoMemory>
        ensures sent { OnOk result (HasSent sent.messages.items
            (out.old ++ notice_lines (came_notices place sent.came)) out.new self.old self.new) }
        ensures on { IfOk result (λ on. on ≡ goes_on_after sent.came) }
    {
        match sent.came {
            Came::Went => {}
            Came::Failed => print_fault(alloc, out, place)?,
            Came::Stopped => print_stopped(alloc, out, place)?,
        }
        self.send_all(alloc, sent.messages, out)?;
        Ok(sent.came != Came::Stopped)
    }
}

/// What is told of a message that came to a gateway.
fn print_ending(
    alloc: Global,
    out: &mut Octets,
    number: u64,
    ending: Ending,
) -> Result<(), NoMemory>
    ensures { OnOk result (out.new ≡ out.old ++ notice_lines (ending_notices number ending)) }
{
    match ending {
        Ending::Quiet => Ok(()),
        Ending::Down => print_down(alloc, out, number),
        Ending::Expired => print_expired(alloc, out, number),
        Ending::Dropped(why) => print_drop(alloc, out, number, why),
    }
}

/// Where the message with this number is.
pub(crate) fn index_of(number: u64) -> usize
    ensures { result ≡ number - 1 }
{
    number.saturating_sub(1) as usize
}
