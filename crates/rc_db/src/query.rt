//! Queries of one name.

ghost use Rattle.std.specs.Prelude.{◌≡◌, ◌≢◌, List, Bool, Some, slice_get, string_bytes, IfOk};
ghost use Rattle.std.specs.Prelude.{IfErr, OnOk};
ghost use Rattle.rc_model.specs.Line.{Lists};
ghost use Rattle.rc_model.specs.Names.{Has};
ghost use Rattle.rc_model.specs.Database.{Service as Facts, value_of, IsDatabase};
ghost use Rattle.rc_db.specs.Service.{limit_of, script_of};
ghost use Rattle.rc_db.specs.Queries.{IsKindOf, IsServiceNamed};
ghost use Rattle.rc_db.specs.QueryFaults.{AnyName, OfService, OfBundle, OfOneshot, IsSuch};
ghost use Rattle.rc_db.specs.QueryFaults.{IsQueryFault};

use crate::db::Db;
use crate::fault::QueryFault;
use crate::named::{has_bundle, has_name};
use rc_graph::Way;
use rc_names::Kind;
use std::alloc::Global;

impl Db {
    /// Returns the kind of a name. Takes no memory.
    pub fn kind(&self, name: &str) -> Result<Kind, QueryFault>
        ensures kind { IfOk result (λ kind. IsKindOf self.now name.now kind) }
        ensures fault { IfErr result (λ fault. IsQueryFault self.now AnyName name.now fault) }
        ensures room { IfErr result (λ fault. fault ≢ QueryFault.Memory) }
    {
        match self.names().find(name) {
            Some(id) => Ok(self.service(id).kind),
            None => {
                if has_bundle(self.table(), name) {
                    Ok(Kind::Bundle)
                } else {
                    Err(QueryFault::Unknown(0))
                }
            }
        }
    }

    /// Returns the time that a service may take on its way, in milliseconds; 0 is no limit. Takes
    /// no memory.
    pub fn limit(&self, name: &str, way: Way) -> Result<u32, QueryFault>
        ensures limit { IfOk result (λ limit. (service : Facts) ×
            IsServiceNamed self.now name.now service × (limit ≡ limit_of service way)) }
        ensures fault { IfErr result (λ fault. IsQueryFault self.now OfService name.now fault) }
        ensures room { IfErr result (λ fault. fault ≢ QueryFault.Memory) }
    {
        let service = self.service(self.service_named(name)?);
        match way {
            Way::Raise => Ok(service.limit_up),
            Way::Lower => Ok(service.limit_down),
        }
    }

    /// Returns true if a service is essential. Takes no memory.
    pub fn flags(&self, name: &str) -> Result<bool, QueryFault>
        ensures flags { IfOk result (λ essential. (service : Facts) ×
            IsServiceNamed self.now name.now service × (essential ≡ service.essential)) }
        ensures fault { IfErr result (λ fault. IsQueryFault self.now OfService name.now fault) }
        ensures room { IfErr result (λ fault. fault ≢ QueryFault.Memory) }
    {
        let service = self.service(self.service_named(name)?);
        Ok(service.essential)
    }

    /// Returns the services of a bundle, ascending.
    pub fn contents(&self, alloc: Global, name: &str) -> Result<Vec<u16>, QueryFault>
        ensures ids { IfOk result (λ ids. (set : List Bool) ×
            (value_of self.now.table name.now ≡ Some set) × Lists (Has set) ids.items) }
        ensures fault { IfErr result (λ fault. IsQueryFault self.now OfBundle name.now fault) }
    {
        match self.table().get(name) {
            Some(set) => Ok(set.ids(alloc)?),
            None => {
                if has_name(self.names(), name) {
                    Err(QueryFault::NotBundle)
                } else {
                    Err(QueryFault::Unknown(0))
                }
            }
        }
    }

    /// Returns the text that is run for a oneshot on its way, which is empty if there is none.
    pub fn script(&self, alloc: Global, name: &str, way: Way) -> Result<String, QueryFault>
        ensures text { IfOk result (λ text. (service : Facts) ×
            IsServiceNamed self.now name.now service
            × (string_bytes text ≡ script_of service way)) }
        ensures oneshot { OnOk result (IsSuch self.now OfOneshot name.now) }
        ensures fault { IfErr result (λ fault. IsQueryFault self.now OfOneshot name.now fault) }
    {
        let service = self.service(self.service_named(name)?);
        if !service.is_oneshot() {
            return Err(QueryFault::NotOneshot);
        }
        Ok(service.script(alloc, way)?)
    }

    /// Returns the service of a name.
    pub(crate) fn service_named(&self, name: &str) -> Result<u16, QueryFault>
        ensures database { IsDatabase self.now }
        ensures service { IfOk result (λ s. slice_get self.now.names s ≡ Some name.now) }
        ensures fault { IfErr result (λ fault. IsQueryFault self.now OfService name.now fault) }
        ensures room { IfErr result (λ fault. fault ≢ QueryFault.Memory) }
    {
        match self.names().find(name) {
            Some(id) => Ok(id),
            None => {
                if has_bundle(self.table(), name) {
                    Err(QueryFault::NotAtomic)
                } else {
                    Err(QueryFault::Unknown(0))
                }
            }
        }
    }
}
