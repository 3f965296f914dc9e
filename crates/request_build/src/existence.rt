//! Sound schemas permit some request. The law is a function that does nothing, and whose contract
//! states it.
ghost use Rattle.request_build.specs.Existence.{SoundSchemasHaveRequests};

/// Under each sound schema some request is valid.
pub fn sound_schemas_have_requests()
    ensures { SoundSchemasHaveRequests }
{}
