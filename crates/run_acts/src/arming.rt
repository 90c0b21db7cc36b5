// The arms of a phase.

ghost use Rattle.std.specs.Prelude.{[], All, OnErr, OnOk};
ghost use Rattle.script_text.specs.Laws.{IsArm};
ghost use Rattle.run_acts.specs.Benches.{opening_state};
ghost use Rattle.run_acts.specs.PhaseArms.{ArmsAll, ArmsFront, ArmsOneOf, OnlyDevices};

use object_calls::Opening;
use rpmb_card::CardRig;
use script_text::Arm;
use tee_ports::FileRig;
use tee_types::NoMemory;

// Arms one device.
fn arm_device<F: FileRig + Drop, R: CardRig + Drop>(
    opening: &mut Opening<F, R>,
    arm: &Arm,
) -> Result<(), NoMemory>
    requires { IsArm arm.now }
    ensures arms { OnOk result (ArmsOneOf arm.now (opening_state F.state R.state opening.old) (opening_state F.state R.state opening.new)) }
    ensures unarmed { OnErr result (ArmsAll [] (opening_state F.state R.state opening.old) (opening_state F.state R.state opening.new)) }
    ensures others { OnlyDevices opening.old opening.new }
{
    match arm {
        Arm::Stop { device, calls } => {
            opening.stop_after(*device, u64::from(*calls));
            Ok(())
        }
        Arm::Fail { device, call } => opening.fail_call(*device, u64::from(*call)),
        Arm::Lose { call } => opening.lose_call(u64::from(*call)),
        Arm::Taint {
            file,
            call,
            at,
            mask,
        } => opening.taint_call(*file, u64::from(*call), u64::from(*at), mask.as_slice()),
    }
}

/// Arms the devices, one arm after another.
///
/// # Errors
///
/// Memory ran out. The arms before are armed.
pub(crate) fn arm_devices<F: FileRig + Drop, R: CardRig + Drop>(
    opening: &mut Opening<F, R>,
    arms: &[Arm],
) -> Result<(), NoMemory>
    requires { All IsArm arms.now }
    ensures arms { OnOk result (ArmsAll arms.now (opening_state F.state R.state opening.old) (opening_state F.state R.state opening.new)) }
    ensures some { OnErr result (ArmsFront arms.now (opening_state F.state R.state opening.old) (opening_state F.state R.state opening.new)) }
    ensures others { OnlyDevices opening.old opening.new }
{
    for arm in arms {
        arm_device(opening, arm)?;
    }
    Ok(())
}
