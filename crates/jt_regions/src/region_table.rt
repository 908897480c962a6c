//! The table of a terminal's regions.

ghost use Rattle.std.specs.Prelude.{◌≡◌, ◌≤◌, IfSome, IfOk, OnErr, option_copied};
ghost use Rattle.jt_regions.specs.Kinds.{listed};
ghost use Rattle.std.specs.FinMap as map;
ghost use Rattle.jt_regions.specs.declared.table.TheConstants.{REGION_LIMIT};
ghost use Rattle.jt_value.specs.declared.limits.TheConstants.{WORD_COUNT_LIMIT};
ghost use Rattle.jt_regions.specs.Tables.{count_of, Applies, AtMost, Deleted, OthersStay};

use crate::change::RegionChange;
use crate::error::RegionError;
use crate::table::Table;
use jt_region_bodies::{Circle, Polygon, Rectangle, RegionKind, Route};
use jt_value::{Memory, Seq};
use std::alloc::Global;
use std::marker::Model;

/// The regions of a terminal: for each kind a map from id to region, of at most 1,024 regions (this project's own).
#[derive(Drop)]
pub struct RegionTable {
    circles: Table<Circle>,
    rectangles: Table<Rectangle>,
    polygons: Table<Polygon>,
    routes: Table<Route>,
}

impl Model for RegionTable {
    ghost use Rattle.jt_regions.specs.Tables.{Regions};
    ghost use Rattle.jt_regions.specs.Stored.{regions_code};

    ghost Value = { Regions };

    ghost coded = { regions_code };

    ghost view = { λ table. record { circles = table.circles; rectangles = table.rectangles; polygons = table.polygons; routes = table.routes } };
}

impl RegionTable {
    /// A table of no regions, which takes no memory.
    pub fn new(alloc: Global) -> RegionTable
        ensures { result ≡ record {
          circles = map.empty;
          rectangles = map.empty;
          polygons = map.empty;
          routes = map.empty;
        } }
    {
        RegionTable {
            circles: Table::new(alloc),
            rectangles: Table::new(alloc),
            polygons: Table::new(alloc),
            routes: Table::new(alloc),
        }
    }

    /// The circle of an id, or None where the table has none.
    pub fn circle(&self, id: u32) -> Option<&Circle>
        ensures circle { option_copied result ≡ map.get self.now.circles id }
        ensures id { IfSome result (λ circle. circle.now.id ≡ id) }
    {
        self.circles.get(id)
    }

    /// The rectangle of an id, or None where the table has none.
    pub fn rectangle(&self, id: u32) -> Option<&Rectangle>
        ensures rectangle { option_copied result ≡ map.get self.now.rectangles id }
        ensures id { IfSome result (λ rectangle. rectangle.now.id ≡ id) }
    {
        self.rectangles.get(id)
    }

    /// The polygon of an id, or None where the table has none.
    pub fn polygon(&self, id: u32) -> Option<&Polygon>
        ensures polygon { option_copied result ≡ map.get self.now.polygons id }
        ensures id { IfSome result (λ polygon. polygon.now.id ≡ id) }
    {
        self.polygons.get(id)
    }

    /// The route of an id, or None where the table has none.
    pub fn route(&self, id: u32) -> Option<&Route>
        ensures route { option_copied result ≡ map.get self.now.routes id }
        ensures id { IfSome result (λ route. route.now.id ≡ id) }
    {
        self.routes.get(id)
    }

    /// The same table again.
    pub fn copy(&self) -> Result<RegionTable, Memory>
        ensures { IfOk result (λ copy. copy ≡ self.now) }
    {
        Ok(RegionTable {
            circles: self.circles.copy()?,
            rectangles: self.rectangles.copy()?,
            polygons: self.polygons.copy()?,
            routes: self.routes.copy()?,
        })
    }

    /// All rectangles in order of id.
    pub fn rectangles(&self, alloc: Global) -> Result<Seq<Rectangle>, Memory>
        ensures { IfOk result (λ list. list ≡ listed self.now.rectangles) }
    {
        self.rectangles.list(alloc)
    }

    /// All polygons in order of id.
    pub fn polygons(&self, alloc: Global) -> Result<Seq<Polygon>, Memory>
        ensures { IfOk result (λ list. list ≡ listed self.now.polygons) }
    {
        self.polygons.list(alloc)
    }

    /// The number of regions of a kind, at most 1,024.
    pub fn count(&self, kind: RegionKind) -> u32
        ensures count { result ≡ count_of kind self.now }
        ensures few { result ≤ REGION_LIMIT }
    {
        let count = match kind {
            RegionKind::Circle => self.circles.len(),
            RegionKind::Rectangle => self.rectangles.len(),
            RegionKind::Polygon => self.polygons.len(),
            RegionKind::Route => self.routes.len(),
        };
        count as u32
    }

    /// Applies a change of at most 65,535 regions or ids. On any error the table is as before. BadSetting comes exactly where
    /// the setting is above 2; then NoRegion exactly where the setting is 2, with the first id of the list that the table
    /// lacks; then TooMany exactly where the kind would have more than 1,024 regions, with their number; or Memory.
    pub fn apply(&mut self, change: &RegionChange) -> Result<(), RegionError>
        requires { AtMost WORD_COUNT_LIMIT change.now }
        ensures answer { Applies change.now self.old result self.new }
        ensures err { OnErr result (self.new ≡ self.old) }
    {
        match change {
            RegionChange::Circles { setting, list } => {
                self.circles.set(*setting, list.as_slice())
            }
            RegionChange::Rectangles { setting, list } => {
                self.rectangles.set(*setting, list.as_slice())
            }
            RegionChange::Polygon(polygon) => self.polygons.put(polygon),
            RegionChange::Route(route) => self.routes.put(route),
            RegionChange::Delete { kind, ids } => {
                self.delete(*kind, ids.as_slice());
                Ok(())
            }
        }
    }

    // Takes out the regions of a kind with these ids, and all of the kind where there are none.
    fn delete(&mut self, kind: RegionKind, ids: &[u32])
        ensures regions { Deleted kind ids.now self.old self.new }
        ensures others { OthersStay kind self.old self.new }
    {
        match kind {
            RegionKind::Circle => self.circles.delete(ids),
            RegionKind::Rectangle => self.rectangles.delete(ids),
            RegionKind::Polygon => self.polygons.delete(ids),
            RegionKind::Route => self.routes.delete(ids),
        }
    }
}
