//! What replies say: a status, fields and a body.
ghost use Rattle.std.specs.Prelude.{◌≡◌, Some, None, IfOk};
ghost use Rattle.op_model.specs.Printed.{telling, ok as ok_said, created as created_said, no_content};
ghost use Rattle.op_reply.specs.Values.{data_of};
ghost use Rattle.op_reply.specs.Said.{said_of, status_line};

use crate::values::Json;
use http::StatusCode;
use op_model::Text;
use op_names::Origin;

/// What a reply says.
#[derive(Drop)]
pub struct Said<'a> {
    pub status: StatusCode,
    /// The methods of a path where another was used (RFC 9110, section 10.2.1).
    pub allow: Option<&'a Text>,
    /// The origin at which a grant is asked for, where a proof or a token is missing (RFC 9635, section 9.1).
    pub challenge: Option<&'a Origin>,
    pub body: Option<Json>,
}

impl<'a> Said<'a> {
    /// A status and a body.
    pub fn telling(status: StatusCode, body: Json) -> Said<'a>
        ensures { said_of result ≡ telling (status_line status) (data_of body) }
    {
        Said {
            status,
            allow: None,
            challenge: None,
            body: Some(body),
        }
    }

    #[tactic(auto, unfolding(crate::specs::Said::status_line))]
    pub fn ok(body: Json) -> Said<'a>
        ensures { said_of result ≡ ok_said (data_of body) }
    {
        Said::telling(StatusCode::OK, body)
    }

    #[tactic(auto, unfolding(crate::specs::Said::status_line))]
    pub fn created(body: Json) -> Said<'a>
        ensures { said_of result ≡ created_said (data_of body) }
    {
        Said::telling(StatusCode::CREATED, body)
    }

    /// Nothing is told.
    #[tactic(auto, unfolding(crate::specs::Said::status_line))]
    pub fn gone() -> Said<'a>
        ensures { said_of result ≡ no_content }
    {
        Said {
            status: StatusCode::NO_CONTENT,
            allow: None,
            challenge: None,
            body: None,
        }
    }
}
