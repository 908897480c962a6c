//! Hub after hub of a service.

use crate::announcing::Announced;
use crate::interface::Interface;
use crate::opening::Opener;
use dewfelt_settings::Settings;
use dewfelt_tending::{Ground, HasGround};
use dewfelt_told::Told;
use jt_platform::Hub;
use jt_service::{Door, Limits, ServiceEnd, Watch, Witnessed, serve_on};
use jt_store::Keeper;
use jt_value::Memory;
use std::alloc::Global;
use std::sync::Wait;
use std::thread::Threads;
use std::time::Clock;

/// What each run of a service goes by.
#[derive(Drop)]
pub(crate) struct Run<'w, R, T> {
    pub(crate) rt: &'w R,
    pub(crate) alloc: Global,
    pub(crate) watch: &'w Watch<Told<T>>,
    pub(crate) settings: &'w Settings,
    /// The interface over HTTP, where there is one.
    pub(crate) interface: &'w Option<Interface>,
}

fn limits_of(settings: &Settings) -> Limits {
    let mut limits = Limits::of(settings.links.number);
    limits.quiet = settings.quiet.number as u64;
    limits.strangers = settings.strangers.number;
    limits.strangers_of_address = match settings.strangers_of_address {
        Some(count) => Some(count.number),
        None => None,
    };
    limits
}

impl<'w, R, T> Run<'w, R, T>
where
    R: Threads + Wait + Clock + Sync,
    T: Wait + Clock + Send + Drop,
{
    fn say(&self, event: &str, key: &str, value: &str) {
        self.watch.told().lock(self.rt).say(event, key, value);
    }

    // Says at the interface that no links are served.
    fn set_unready(&self) {
        if let Some(interface) = self.interface {
            interface.site.set_ready(false);
        }
    }

    // Serves by a hub, and lets go of it.
    fn serve_hub<D, P>(&self, door: &mut D, ground: Ground<P>) -> ServiceEnd
    where
        D: Door,
        D::Link: Send,
        P: Keeper + Send + Drop,
    {
        let Ground {
            keeper,
            fleet,
            secret,
            vehicles: _,
            forgotten: _,
            octets: _,
        } = ground;
        let journal = Witnessed::of(self.rt, self.watch);
        let Ok(hub) = Hub::begin_with(self.alloc, keeper, fleet, secret, journal) else {
            return ServiceEnd::Memory;
        };
        let limits = limits_of(self.settings);
        let mut door = Announced::of(door, self);
        let (end, hub) = serve_on(self.rt, self.alloc, &mut door, hub, limits, self.watch);
        drop(hub);
        end
    }

    // What follows a run that ended so: None where another one does.
    fn after<G: HasGround>(&self, end: ServiceEnd, opener: &mut Opener<G>) -> Option<ServiceEnd> {
        match end {
            ServiceEnd::Renewed => self.say("renewed", "why", "fleet"),
            ServiceEnd::NumbersSpent => self.say("renewed", "why", "numbers-spent"),
            ServiceEnd::StoreFailed => {
                self.say("fault", "serving", "failed");
                opener.let_go();
            }
            _ => return Some(end),
        }
        self.watch.told().lock(self.rt).begin_anew();
        None
    }

    /// Serves the links that come in at the door by hub after hub, until the service is to end. Answers why.
    pub(crate) fn serve<D, G>(&self, door: &mut D, ground: G) -> ServiceEnd
    where
        D: Door,
        D::Link: Send,
        G: HasGround + Drop,
        G::Keeper: Send,
    {
        let mut opener = Opener::new(ground);
        for _ in self.rt.forever() {
            let Some(ground) = opener.next(self.rt, self.alloc, self.watch) else {
                return ServiceEnd::Stopped;
            };
            let end = self.serve_hub(door, ground);
            self.set_unready();
            if let Some(end) = self.after(end, &mut opener) {
                return end;
            }
        }
        unreachable!()
    }
}
