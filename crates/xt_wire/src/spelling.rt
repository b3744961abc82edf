ghost use Rattle.xt_messages.specs.Limits.{FitsBallot, FitsBoot, FitsCapability, FitsEpoch, FitsFile, FitsHead, FitsLease, FitsLocation, FitsMark, FitsMetaReq, FitsNode, FitsOp, FitsOpId, FitsRegistryReq, FitsStamp, FitsUpdate};
ghost use Rattle.xt_fields.specs.OneSpelling.{IsField};
ghost use Rattle.xt_wire.specs.IdFields.{node_bytes, node_at, boot_bytes, boot_at, file_bytes, file_at, ballot_bytes, ballot_at, epoch_bytes, epoch_at, stamp_bytes, stamp_at, lease_bytes, lease_at, op_id_bytes, op_id_at, mark_bytes, mark_at};
ghost use Rattle.xt_wire.specs.FileFields.{location_bytes, location_at, capability_bytes, capability_at, op_bytes, op_at, update_bytes, update_at, head_bytes, head_at};
ghost use Rattle.xt_wire.specs.MetaFields.{meta_req_bytes, meta_req_at};
ghost use Rattle.xt_wire.specs.RegistryFields.{registry_req_bytes, registry_req_at};

/// What is read of a field is a value within limits whose spelling is there, and what is spelled so is read,
/// whatever follows it. So each value has one spelling, and no spelling begins another.
pub fn each_has_one_spelling()
    ensures node { IsField node_bytes FitsNode node_at }
    ensures boot { IsField boot_bytes FitsBoot boot_at }
    ensures file_id { IsField file_bytes FitsFile file_at }
    ensures ballot { IsField ballot_bytes FitsBallot ballot_at }
    ensures epoch { IsField epoch_bytes FitsEpoch epoch_at }
    ensures stamp { IsField stamp_bytes FitsStamp stamp_at }
    ensures lease { IsField lease_bytes FitsLease lease_at }
    ensures op_id { IsField op_id_bytes FitsOpId op_id_at }
    ensures mark { IsField mark_bytes FitsMark mark_at }
    ensures location { IsField location_bytes FitsLocation location_at }
    ensures capability { IsField capability_bytes FitsCapability capability_at }
    ensures operation { IsField op_bytes FitsOp op_at }
    ensures update { IsField update_bytes FitsUpdate update_at }
    ensures head { IsField head_bytes FitsHead head_at }
    ensures meta_req { IsField meta_req_bytes FitsMetaReq meta_req_at }
    ensures registry_req { IsField registry_req_bytes FitsRegistryReq registry_req_at }
{}
