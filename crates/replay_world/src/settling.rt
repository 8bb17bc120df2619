// Settling.
ghost use Rattle.std.specs.Prelude.{◌≡◌, ◌∷◌, ◌<◌, ◌-◌, ◌%◌, [], ℕ, None, OnOk, length, map, true};
ghost use Rattle.std.specs.List.{flat_map, range_with_len};
ghost use Rattle.once_core.specs.Turn.{no_gateway, no_running_gateway};
ghost use Rattle.once_core.specs.declared.event.Event.TheVariants as event;
ghost use Rattle.replay_world.specs.Does.{Does, DoesAll, Makes};
ghost use Rattle.replay_world.specs.Lines.{settle_steps, settling_steps};
ghost use Rattle.replay_world.specs.Settling.{AreUnarmed, Settles, opening_steps};
ghost use Rattle.replay_world.specs.Stands.{Stands};
ghost use Rattle.replay_world.specs.Steps.{Disarms, Plays, Writes};
ghost use Rattle.replay_world.specs.Value.{ReplayValue};

use crate::replay::Replay;
use gw_base::{NoMemory, Octets};
use replay_gateway::GatewayCall;
use std::alloc::Global;

impl Replay {
    /// Nothing is armed any more, and then each gateway settles.
    pub(crate) fn settle_all(&mut self, alloc: Global, out: &mut Octets) -> Result<(), NoMemory>
        ensures { (v : ReplayValue) → Stands v self.old → OnOk result
            (Makes v (settle_steps v) out.old out.new self.new) }
    {
        self.disarm_all(alloc);
        self.settle_each(alloc, out)
    }

    // Nothing is armed for any gateway.
    fn disarm_all(&mut self, alloc: Global)
        ensures { (v : ReplayValue) → Stands v self.old →
            DoesAll v (map (λ gateway. Disarms (gateway - 1)) (range_with_len 1 (length v.world.gateways))) [] []
            self.new true }
    {
        for index in 0..self.gateways.len() {
            self.disarm(alloc, index);
        }
    }

    // Nothing is armed for the gateway in this place.
    fn disarm(&mut self, alloc: Global, index: usize)
        requires { index < length self.old.gateways.items }
        ensures count { length self.new.gateways.items ≡ length self.old.gateways.items }
        ensures does { (v : ReplayValue) → Stands v self.old → Does v (Disarms index) [] [] self.new }
    {
        self.gateways[index].disarm(alloc);
    }

    // Each gateway settles.
    fn settle_each(&mut self, alloc: Global, out: &mut Octets) -> Result<(), NoMemory>
        ensures { (v : ReplayValue) → Stands v self.old → AreUnarmed v → OnOk result
            (Makes v (flat_map (settling_steps v) (range_with_len 1 (length v.world.gateways))) out.old out.new
            self.new) }
    {
        for index in 0..self.gateways.len() {
            self.settle_gateway(alloc, octet(index), out)?;
        }
        Ok(())
    }

    /// A gateway is opened where it is down, commits, closes its files and commits again; and its files are written.
    fn settle_gateway(&mut self, alloc: Global, place: u8, out: &mut Octets) -> Result<(), NoMemory>
        ensures { (v : ReplayValue) (number : ℕ) → Stands v self.old → AreUnarmed v →
            number - 1 ≡ place → no_gateway v.world number ≡ None → OnOk result
            (Settles v (settling_steps v number) number out.old out.new self.new) }
    {
        self.open_if_down(alloc, place)?;
        self.commit_and_close(alloc, place, out)?;
        self.commit_and_write(alloc, place, out)
    }

    // A gateway is opened where it is down.
    fn open_if_down(&mut self, alloc: Global, place: u8) -> Result<(), NoMemory>
        ensures { (v : ReplayValue) (number : ℕ) → Stands v self.old → AreUnarmed v →
            number - 1 ≡ place → no_gateway v.world number ≡ None → OnOk result
            (Settles v (opening_steps v number) number [] [] self.new) }
    {
        if !self.is_down(u64::from(place) + 1) {
            return Ok(());
        }
        self.open(alloc, place)
    }

    // A gateway commits and closes its files.
    fn commit_and_close(
        &mut self,
        alloc: Global,
        place: u8,
        out: &mut Octets,
    ) -> Result<(), NoMemory>
        ensures { (v : ReplayValue) (number : ℕ) → Stands v self.old → AreUnarmed v →
            number - 1 ≡ place → no_running_gateway v.world number ≡ None → OnOk result
            (Settles v (Plays (event.Commit number) ∷ Plays (event.Close number) ∷ []) number out.old out.new
            self.new) }
    {
        self.at_gateway(alloc, place, GatewayCall::Commit, out)?;
        self.at_gateway(alloc, place, GatewayCall::Close, out)?;
        Ok(())
    }

    // A gateway commits, and its files are written.
    fn commit_and_write(
        &mut self,
        alloc: Global,
        place: u8,
        out: &mut Octets,
    ) -> Result<(), NoMemory>
        ensures { (v : ReplayValue) (number : ℕ) → Stands v self.old → AreUnarmed v →
            number - 1 ≡ place → no_running_gateway v.world number ≡ None → OnOk result
            (Settles v (Plays (event.Commit number) ∷ Writes (number - 1) ∷ []) number out.old out.new self.new) }
    {
        self.at_gateway(alloc, place, GatewayCall::Commit, out)?;
        self.write(alloc, place)?;
        Ok(())
    }
}

/// A place as an octet, of which there are fewer than 256.
pub(crate) fn octet(place: usize) -> u8
    ensures { result ≡ place % 256 }
{
    (place % 256) as u8
}
