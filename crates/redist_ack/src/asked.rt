//! What is asked of a redistributor, and what it answers.
ghost use Rattle.std.specs.Prelude.{◌≡◌};
ghost use Rattle.lpi_pending.specs.InHand.{pend_state};
ghost use Rattle.redist_ack.specs.Offers.{acknowledged, IsInRange};

use its_plain::{Ack, Call};
use its_types::{Intid, Vcpu};
use lpi_config::Conf;
use lpi_pending::Pend;

/// An acknowledgement, or a look at what one would be.
#[derive(Clone, Copy)]
pub enum Asked {
    /// The lowest LPI that is pending and enabled is acknowledged.
    Take,
    /// It is shown.
    Show,
    /// The one that comes first by priority is shown, of those whose priority is below the mask.
    Best(u8),
    /// This LPI is acknowledged.
    Claim(Intid),
}

impl Asked {
    ghost use Rattle.std.specs.Prelude.{◌≡◌, true, IfSome};
    ghost use Rattle.std.specs.Option.{option_map};
    ghost use Rattle.its_plain.specs.Answer.{ack_of};
    ghost use Rattle.its_plain.specs.Plain.{ConfState, joined, pend_of};
    ghost use Rattle.its_types.specs.Ranges.{is_lpi};
    ghost use Rattle.lpi_pending.specs.InHand.{pend_state, redistributor_of};
    ghost use Rattle.lpi_pending.specs.PendingSets.{as_intid};
    ghost use Rattle.redist_ack.specs.Offers.{call_of, chosen, left_by, IsInRange};

    /// The call of the history.
    pub fn call(self, vcpu: Vcpu) -> Call
        ensures { result ≡ call_of vcpu self }
    {
        match self {
            Asked::Take => Call::Take(vcpu),
            Asked::Show => Call::Show(vcpu),
            Asked::Best(mask) => Call::Best { vcpu, mask },
            Asked::Claim(intid) => Call::Claim { vcpu, intid },
        }
    }

    // The LPI that it is about, if there is one.
    fn choose(self, conf: &Conf, pend: &Pend) -> Option<Intid>
        requires { pend.now.pending.lpi_bits ≡ conf.now.config.lpi_bits }
        ensures chosen { result
            ≡ option_map as_intid (chosen (redistributor_of conf.now pend.now) self) }
        ensures in_range { IfSome result
            (λ intid. is_lpi pend.now.pending.lpi_bits intid.0 ≡ true) }
    {
        match self {
            Asked::Take | Asked::Show => pend.first_enabled(conf),
            Asked::Best(mask) => pend.first_by_priority(conf, mask),
            Asked::Claim(intid) => pend.claimable(conf, intid),
        }
    }

    /// The LPI with its priority, of which bits 1 and 0 are clear.
    pub fn answer(self, conf: &Conf, pend: &Pend) -> Ack
        requires { pend.now.pending.lpi_bits ≡ conf.now.config.lpi_bits }
        ensures answer { let r = redistributor_of conf.now pend.now in
            result ≡ ack_of r (chosen r self) }
        ensures in_range { IsInRange pend.now.pending.lpi_bits result }
    {
        match self.choose(conf, pend) {
            Some(intid) => Ack::Some {
                intid,
                priority: conf.byte(intid) & 0xfc,
            },
            None => Ack::None,
        }
    }

    /// The LPI that was acknowledged is pending no more, by whichever configuration it was chosen.
    /// One that was shown stays.
    pub fn apply(self, pend: &mut Pend, answer: Ack)
        requires { IsInRange pend.old.pending.lpi_bits answer }
        ensures left { (c : ConfState) → answer ≡ ack_of (joined c (pend_state pend.old))
            (chosen (joined c (pend_state pend.old)) self)
            → pend_state pend.new ≡ pend_of (left_by (joined c (pend_state pend.old)) self) }
        ensures lpis { pend.new.pending.lpi_bits ≡ pend.old.pending.lpi_bits }
    {
        if let Asked::Take | Asked::Claim(_) = self {
            acknowledge(pend, answer);
        }
    }
}

fn acknowledge(pend: &mut Pend, answer: Ack)
    requires { IsInRange pend.old.pending.lpi_bits answer }
    ensures left { pend_state pend.new ≡ acknowledged (pend_state pend.old) answer }
    ensures lpis { pend.new.pending.lpi_bits ≡ pend.old.pending.lpi_bits }
{
    if let Ack::Some { intid, .. } = answer {
        pend.clear(intid);
    }
}
