//! One terminal in both editions.

ghost use Rattle.std.specs.Prelude.{◌≡◌, IfOk};
ghost use Rattle.jt_play.specs.Scripts.{settings_in};

use jt_register::Register;
use jt_terminal_rule::Settings;
use jt_value::{Edition, Memory};
use std::alloc::Global;

/// The settings of one terminal in each edition. Its phone has the same twenty digits in both.
#[derive(Drop)]
pub struct Identity {
    /// The settings in 2013.
    pub e2013: Settings,
    /// The settings in 2019.
    pub e2019: Settings,
}

fn copy_register(alloc: Global, register: &Register) -> Result<Register, Memory>
    ensures { IfOk result (λ copy. copy ≡ register.now) }
{
    let maker = register.maker.copy(alloc)?;
    let model = register.model.copy(alloc)?;
    let terminal = register.terminal.copy(alloc)?;
    let plate = register.plate.copy(alloc)?;
    Ok(Register {
        province: register.province,
        city: register.city,
        maker,
        model,
        terminal,
        colour: register.colour,
        plate,
    })
}

fn copy_settings(alloc: Global, settings: &Settings) -> Result<Settings, Memory>
    ensures { IfOk result (λ copy. copy ≡ settings.now) }
{
    let register = copy_register(alloc, &settings.register)?;
    Ok(Settings {
        phone: settings.phone,
        register,
        tail: settings.tail,
        heartbeat: settings.heartbeat,
        answer: settings.answer,
        repeats: settings.repeats,
    })
}

impl Identity {
    /// A copy of the settings in an edition. Memory comes where memory ran out.
    pub fn settings(&self, alloc: Global, edition: Edition) -> Result<Settings, Memory>
        ensures { IfOk result (λ settings. settings ≡ settings_in self.now edition) }
    {
        match edition {
            Edition::E2013 => copy_settings(alloc, &self.e2013),
            Edition::E2019 => copy_settings(alloc, &self.e2019),
        }
    }
}
