//! When it is said that links are accepted.

use crate::interface::Interface;
use crate::running::Run;
use dewfelt_settings::Settings;
use dewfelt_told::{Told, say_listening};
use jt_service::{Arrived, Door, Watch};
use std::sync::Wait;
use std::time::Clock;

/// A door at which it is said, at the first look, that links are accepted: a service looks once its hub's room and its threads are made.
#[derive(Drop)]
pub(crate) struct Announced<'d, 'w, D, R, T> {
    door: &'d mut D,
    rt: &'w R,
    watch: &'w Watch<Told<T>>,
    settings: &'w Settings,
    interface: &'w Option<Interface>,
    is_said: bool,
}

impl<'d, 'w, D, R, T> Announced<'d, 'w, D, R, T> {
    /// A door at which nobody looked so far.
    pub(crate) fn of(door: &'d mut D, run: &Run<'w, R, T>) -> Announced<'d, 'w, D, R, T> {
        Announced {
            door,
            rt: run.rt,
            watch: run.watch,
            settings: run.settings,
            interface: run.interface,
            is_said: false,
        }
    }
}

// (not bound to threads as the run is, since a call that is cannot stand behind a trait's)
impl<'d, 'w, D, R: Wait, T: Wait + Clock + Drop> Announced<'d, 'w, D, R, T> {
    fn say_ready(&self) {
        say_listening(&mut self.watch.told().lock(self.rt), self.settings);
        if let Some(interface) = self.interface {
            interface.site.set_ready(true);
        }
    }
}

impl<'d, 'w, D: Door, R: Wait, T: Wait + Clock + Drop> Door for Announced<'d, 'w, D, R, T> {
    type Link = D::Link;

    fn next(&mut self) -> Arrived<D::Link> {
        if !self.is_said {
            self.say_ready();
            self.is_said = true;
        }
        self.door.next()
    }
}
