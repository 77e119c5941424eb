//! The states of peers, and the objects that they lack, as JSON.
ghost use Rattle.std.specs.Prelude.{◌≡◌, ◌++◌, IfOk, OnOk};
ghost use Rattle.serde_json.specs.Data.{object};
ghost use Rattle.pgp_text.specs.Asked.{objects_data, objects_fields, missing_data};
ghost use Rattle.pgp_text.specs.Versions.{versions_members};
ghost use Rattle.pgp_text.specs.Written.{fields_tokens};

use super::parts::{Json, write_field};
use json::Writer;
use pgp_ids::{MissingObject, PeerMissing, PeerState, Version};
use std::alloc::{AllocError, Global};
use std::collections::BTreeMap;

impl Json<Global> for PeerMissing {
    ghost value = { λ _ x. missing_data x };

    #[tactic(auto, using(crate::proofs::Tokens::token_steps))]
    fn write(&self, out: &mut Writer, alloc: Global) -> Result<(), AllocError> {
        out.begin_object()?;
        write_field(out, alloc, "member", &self.member)?;
        write_objects(alloc, out, &self.state)?;
        write_field(out, alloc, "state", &self.state.name())?;
        out.end_object()
    }
}

/// Writes the objects that a peer lacks, where it is known which.
#[tactic(auto, unfolding(crate::specs::Written::fields_tokens))]
fn write_objects(alloc: Global, out: &mut Writer, state: &PeerState) -> Result<(), AllocError>
    ensures ok { OnOk result
        (out.new.tokens ≡ out.old.tokens ++ fields_tokens (objects_fields state.now)) }
    ensures before { out.new.before ≡ out.old.before }
{
    match state {
        PeerState::Missing(objects) => {
            let versions = versions_of(alloc, objects.as_slice())?;
            write_field(out, alloc, "objects", &versions)
        }
        _ => Ok(()),
    }
}

/// The versions of objects by their names, in ascending byte order; of a name that is twice in the list the last.
#[tactic(auto, using(crate::proofs::Versions::version_steps))]
fn versions_of(
    alloc: Global,
    objects: &[MissingObject],
) -> Result<BTreeMap<String, Version>, AllocError>
    ensures { IfOk result (λ m. object (versions_members m.entries) ≡ objects_data objects.now) }
{
    let mut versions = BTreeMap::new(alloc);
    for missing in objects {
        let name = String::from_str(alloc, missing.object.as_str())?;
        versions.insert(name, missing.version)?;
    }
    Ok(versions)
}

/// An object from name to version.
impl Json<Global> for BTreeMap<String, Version> {
    ghost value = { λ _ versions. object (versions_members versions.entries) };

    #[tactic(auto, using(crate::proofs::Tokens::field_of_members))]
    fn write(&self, out: &mut Writer, alloc: Global) -> Result<(), AllocError> {
        out.begin_object()?;
        for (name, version) in self.iter() {
            write_field(out, alloc, name.as_str(), version)?;
        }
        out.end_object()
    }
}
