//! The text of a reply, in the message format of RFC 9112.

ghost use Rattle.std.specs.Prelude.{◌≡◌, IfOk, option_copied};
ghost use Rattle.std.specs.String.{string_bytes};
ghost use Rattle.desk_http.specs.Reply.{allow_line, head_text, phrase_in, phrases, reply_text};

use std::alloc::{AllocError, Global};

/// The reason phrase of a status, as RFC 9110 names it. A status that no reply has gives the empty
/// phrase, which a status line may have.
pub fn phrase_of(status: u16) -> &'static str
    ensures { result.now ≡ phrase_in phrases status }
{
    match status {
        200 => "OK",
        202 => "Accepted",
        400 => "Bad Request",
        404 => "Not Found",
        405 => "Method Not Allowed",
        409 => "Conflict",
        411 => "Length Required",
        413 => "Content Too Large",
        414 => "URI Too Long",
        422 => "Unprocessable Content",
        431 => "Request Header Fields Too Large",
        501 => "Not Implemented",
        503 => "Service Unavailable",
        _ => "",
    }
}

// The Allow line, where there is one.
fn allow_line(alloc: Global, allow: Option<&str>) -> Result<String, AllocError>
    ensures { IfOk result (λ line. string_bytes line ≡ allow_line (option_copied allow.entry)) }
{
    match allow {
        None => Ok(String::new(alloc)),
        Some(method) => format!(in alloc; "Allow: {method}\r\n"),
    }
}

/// The head of a reply: the status line, the header fields and an empty line. `allow` is the method
/// that the path takes, where the request had another. Fails only where memory runs out.
#[tactic(auto, unfolding(crate::specs::Reply::head_text))]
pub fn head_text(
    alloc: Global,
    status: u16,
    allow: Option<&str>,
    body: &str,
) -> Result<String, AllocError>
    ensures { IfOk result (λ text. string_bytes text ≡ head_text
        (record { status = status; allow = option_copied allow.entry; body = body.now })) }
{
    let phrase = phrase_of(status);
    let allow = allow_line(alloc, allow)?;
    let length = body.len();
    format!(in alloc;
        "HTTP/1.1 {status} {phrase}\r\n{allow}Content-Type: application/json\r\nContent-Length: {length}\r\nConnection: close\r\n\r\n"
    )
}

/// The text of a reply: its head and the body. Fails only where memory runs out.
pub fn reply_text(
    alloc: Global,
    status: u16,
    allow: Option<&str>,
    body: &str,
) -> Result<String, AllocError>
    ensures { IfOk result (λ text. string_bytes text ≡ reply_text
        (record { status = status; allow = option_copied allow.entry; body = body.now })) }
{
    let mut text = head_text(alloc, status, allow, body)?;
    text.push_str(body)?;
    Ok(text)
}
