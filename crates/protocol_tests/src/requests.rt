// Signed requests: each rule broken once, the least of two, what is asked, and what a site makes.
use claim_tree::{KeyName, SignAlg};
use dcql_query::Query;
use json_forms::{has_float, read_json};
use jws_envelope::Draft;
use key_device::{KeyDevice, MemoryDevice};
use request_object::{Asked, Clients, Error, Request, make_object};
use std::alloc::Global;
use std::test::Fail;

const BASE: &str = r#"{"aud":"https://self-issued.me/v2","client_id":"rp.example","nonce":"n",
    "response_mode":"direct_post","response_type":"vp_token","state":"s",
    "response_uri":"http://localhost:8080/response""#;

const QUERY: &str = r#""dcql_query":{"credentials":[{"id":"a","format":"dc+sd-jwt"}]}"#;

// The answer to an object with this type and these members after those of the base: 0 where it is read.
fn answer(
    alloc: Global,
    typ: &str,
    front: &str,
    members: &str,
    back: &str,
) -> Result<(u8, u8), Fail> {
    let key = KeyName::from_text(alloc, "k")?;
    let mut device = MemoryDevice::new(alloc, &[KeyName::from_text(alloc, "k")?])?;
    let text = format!(in alloc; "{BASE},{members}}}")?;
    let Some(payload) = read_json(alloc, text.as_bytes())? else {
        return Ok((255, 0));
    };
    if has_float(&payload) || device.holds(&key).is_none() {
        return Ok((254, 0));
    }
    let draft = Draft::new(alloc, SignAlg::Bench256, typ, None, &payload)?;
    let Ok(signature) = device.sign(alloc, &key, draft.signing_input().as_bytes()) else {
        return Ok((253, 0));
    };
    let object = draft.finish(alloc, &signature)?;
    let text = format!(in alloc; "{front}{object}{back}")?;
    let Ok(clients) = Clients::read(alloc, "rp.example k\norigin:x k\nredirect_uri:x k\n") else {
        return Ok((252, 0));
    };
    Ok(number(Request::read(alloc, text.as_str(), &clients, &mut device)))
}

fn number(read: Result<Request, Error>) -> (u8, u8) {
    match read {
        Ok(_) => (0, 0),
        Err(Error::Refused(rule)) => (rule.number, rule.inner),
        Err(Error::DeviceFault) => (251, 0),
        Err(Error::NoMemory) => (250, 0),
    }
}

// Whether an object with these members in addition is answered so.
fn is_so(alloc: Global, typ: &str, members: &str, wanted: (u8, u8)) -> Result<bool, Fail> {
    let members = format!(in alloc; "{QUERY},{members}")?;
    Ok(answer(alloc, typ, "", members.as_str(), "")? == wanted)
}

fn rules_are_so(alloc: Global) -> Result<bool, Fail> {
    for (typ, members, wanted) in [
        ("oauth-authz-req+jwt", r#""x":1"#, (0, 0)),
        ("JWT", r#""x":1"#, (5, 0)),
        ("oauth-authz-req+jwt", r#""client_id":1"#, (6, 0)),
        (
            "oauth-authz-req+jwt",
            r#""client_id":"redirect_uri:x""#,
            (8, 0),
        ),
        ("oauth-authz-req+jwt", r#""client_id":"origin:x""#, (8, 0)),
        ("oauth-authz-req+jwt", r#""client_id":"rp""#, (8, 0)),
        ("oauth-authz-req+jwt", r#""request":"x""#, (10, 0)),
        (
            "oauth-authz-req+jwt",
            r#""aud":"https://site.example""#,
            (11, 0),
        ),
        (
            "oauth-authz-req+jwt",
            r#""aud":["x","https://self-issued.me/v2"]"#,
            (0, 0),
        ),
        ("oauth-authz-req+jwt", r#""response_type":"code""#, (12, 0)),
        (
            "oauth-authz-req+jwt",
            r#""response_mode":"direct_post.jwt""#,
            (13, 0),
        ),
        (
            "oauth-authz-req+jwt",
            r#""redirect_uri":"http://x/""#,
            (14, 0),
        ),
        ("oauth-authz-req+jwt", r#""response_uri":"x""#, (15, 0)),
        ("oauth-authz-req+jwt", r#""nonce":"a b""#, (16, 0)),
        ("oauth-authz-req+jwt", r#""state":null"#, (17, 0)),
        ("oauth-authz-req+jwt", r#""scope":"x""#, (18, 0)),
        ("oauth-authz-req+jwt", r#""transaction_data":[]"#, (19, 0)),
        (
            "oauth-authz-req+jwt",
            r#""dcql_query":{"credentials":[{"id":"a","format":"x","trusted_authorities":[]}]}"#,
            (21, 8),
        ),
        ("JWT", r#""scope":"x""#, (5, 0)),
        ("oauth-authz-req+jwt", r#""scope":"x","nonce":"""#, (16, 0)),
    ] {
        if !is_so(alloc, typ, members, wanted)? {
            return Ok(false);
        }
    }
    Ok(true)
}

fn links_are_so(alloc: Global) -> Result<bool, Fail> {
    for (front, back, wanted) in [
        ("openid4vp://?client_id=rp.example&request=", "#x", (0, 0)),
        ("?client_id=rp.example&request=", "&client_id=x", (1, 0)),
        ("?request=", "", (2, 0)),
        ("?client_id=rp.example&request_uri=http://x/&x=", "", (3, 0)),
        ("?client_id=other&request=", "", (7, 0)),
        ("", ".", (4, 1)),
        ("", "=", (4, 2)),
        ("", "A", (9, 0)),
    ] {
        if answer(alloc, "oauth-authz-req+jwt", front, QUERY, back)? != wanted {
            return Ok(false);
        }
    }
    Ok(true)
}

#[test]
fn each_rule_of_an_object(rt: HostRuntime) -> Result<(), Fail> {
    assert!(rt; rules_are_so(rt.alloc())?);
    Ok(())
}

#[test]
fn each_rule_of_a_link(rt: HostRuntime) -> Result<(), Fail> {
    assert!(rt; links_are_so(rt.alloc())?);
    Ok(())
}

#[test]
fn no_query(rt: HostRuntime) -> Result<(), Fail> {
    let alloc = rt.alloc();
    assert!(rt; answer(alloc, "oauth-authz-req+jwt", "", r#""x":1"#, "")? == (20, 0));
    Ok(())
}

// Whether a request asks what the site below asks.
fn is_asked(request: &Request, nonce: &str, uri: &str) -> bool {
    let asked = request.asked();
    asked.query.len() == 1
        && asked.client == "rp.example"
        && asked.nonce == nonce
        && asked.uri == uri
        && request.state() == Some("s")
}

// The answer to the object that a site makes with this nonce and address, where the call of this number of
// the device fails: 0 where it is read as asked.
fn made(alloc: Global, nonce: &str, uri: &str, failing: u64) -> Result<u8, Fail> {
    let key = KeyName::from_text(alloc, "k")?;
    let mut device = MemoryDevice::new(alloc, &[KeyName::from_text(alloc, "k")?])?;
    device.fail_at(failing)?;
    let text = r#"{"credentials":[{"id":"a","format":"dc+sd-jwt"}]}"#;
    let Some(json) = read_json(alloc, text.as_bytes())? else {
        return Ok(255);
    };
    let Ok(query) = Query::from_json(alloc, &json) else {
        return Ok(253);
    };
    if has_float(&json) || device.holds(&key).is_none() {
        return Ok(254);
    }
    let asked = Asked {
        query: &query,
        client: "rp.example",
        nonce,
        uri,
    };
    let Ok(object) = make_object(alloc, asked, &json, "s", &key, &mut device) else {
        return Ok(249);
    };
    let Ok(clients) = Clients::read(alloc, "rp.example k\n") else {
        return Ok(252);
    };
    match Request::read(alloc, object.as_str(), &clients, &mut device) {
        Ok(request) if is_asked(&request, nonce, uri) => Ok(0),
        Ok(_) => Ok(248),
        Err(error) => Ok(number(Err(error)).0),
    }
}

fn made_are_so(alloc: Global) -> Result<bool, Fail> {
    for (nonce, uri, failing, wanted) in [
        ("n-1._~Z", "http://localhost:8080/response", 9, 0),
        ("n", "https://site.example/", 9, 0),
        ("n", "x", 9, 15),
        ("", "https://site.example/", 9, 16),
        ("a b", "https://site.example/", 9, 16),
        ("n", "https://site.example/", 0, 249),
        ("n", "https://site.example/", 1, 251),
    ] {
        if made(alloc, nonce, uri, failing)? != wanted {
            return Ok(false);
        }
    }
    Ok(true)
}

#[test]
fn what_a_site_makes(rt: HostRuntime) -> Result<(), Fail> {
    assert!(rt; made_are_so(rt.alloc())?);
    Ok(())
}

fn bad_line(alloc: Global, text: &str) -> u32 {
    match Clients::read(alloc, text) {
        Ok(_) => 0,
        Err(request_clients::Error::Line(number)) => number,
        Err(request_clients::Error::NoMemory) => u32::MAX,
    }
}

#[test]
fn lines_of_clients(rt: HostRuntime) {
    let alloc = rt.alloc();
    assert!(rt; bad_line(alloc, "") == 0);
    assert!(rt; bad_line(alloc, "rp.example k\nother k l") == 0);
    assert!(rt; bad_line(alloc, "rp.example k\nrp.example k\n") == 2);
    assert!(rt; bad_line(alloc, "rp.example k\n\n") == 2);
}
