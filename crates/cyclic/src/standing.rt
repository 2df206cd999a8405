// What a cycle does to an axis within its limits: it takes the raw number, makes the preset and works out both positions.
ghost use Rattle.std.specs.Prelude.{◌≡◌, ◌<◌};
ghost use Rattle.axis.specs.{Ready, read_raw};
ghost use Rattle.cyclic_link.specs.{Possible};
ghost use Rattle.cyclic.specs.{preset_by, standing, measured};

use axis::{Axis, Next};
use axis_offset::offset_by;
use axis_velocity::moved_at;
use cyclic_link::Preset;
use encoder::effect::InForce;
use encoder::quantity::Units;

// An axis and its two positions.
#[derive(Clone, Copy, PartialEq, Eq)]
pub(crate) struct Standing {
    pub axis: Axis,
    pub position: Units,
    pub unshifted: Units,
}

// The axis at the raw number, or the same axis and the number of the refusal.
pub(crate) fn take(axis: Axis, rules: InForce, raw: u32) -> Next
    requires { Ready axis rules }
    ensures { (result ≡ read_raw axis raw) × Ready result.axis rules }
{
    match axis.shaft.moved(rules, raw) {
        Ok(shaft) => Next {
            axis: Axis { shaft, ..axis },
            refusal: None,
        },
        Err(refusal) => Next {
            axis,
            refusal: Some(refusal),
        },
    }
}

// The answer to a raw number, and the velocity of its move.
#[derive(Clone, Copy, PartialEq, Eq)]
pub(crate) struct Measured {
    pub next: Next,
    // NIST_B
    pub velocity: i32,
}

// Takes the raw number as `take` does, and measures the velocity of its move: from the axis as it stands before. In a faulty cycle it is 0.
pub(crate) fn measure(axis: Axis, rules: InForce, raw: u32, elapsed: u16) -> Measured
    requires { Ready axis rules × (0 < elapsed) }
    ensures { (result ≡ measured axis raw elapsed) × Ready result.next.axis rules }
{
    match moved_at(axis.shaft, rules, raw, elapsed) {
        Ok(at) => Measured {
            next: Next {
                axis: Axis {
                    shaft: at.shaft,
                    ..axis
                },
                refusal: None,
            },
            velocity: at.velocity,
        },
        Err(refusal) => Measured {
            next: Next {
                axis,
                refusal: Some(refusal),
            },
            velocity: 0,
        },
    }
}

// Makes the preset, if there is one. The position is scaled once: after a preset it is unshifted position + new offset.
pub(crate) fn preset(axis: Axis, rules: InForce, asked: Option<Preset>) -> Standing
    requires { Ready axis rules × Possible rules asked }
    ensures { result ≡ standing (preset_by axis asked) }
{
    // an axis within its limits always has a position
    let at = axis.shaft.reported(rules, axis.offset).unwrap();
    let Some(asked) = asked else {
        return Standing {
            axis,
            position: at.position,
            unshifted: at.unshifted,
        };
    };
    let offset = offset_by(
        asked.value,
        asked.relative,
        at.position,
        at.unshifted,
        rules.span,
    );
    Standing {
        axis: Axis {
            offset,
            preset: asked.value,
            ..axis
        },
        position: Units((at.unshifted.0 as i64 + offset) as u32),
        unshifted: at.unshifted,
    }
}
