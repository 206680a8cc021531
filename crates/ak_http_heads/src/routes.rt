ghost use Rattle.std.specs.Prelude.{◌≡◌, IfOk};
ghost use Rattle.ak_http_heads.specs.Heads.{route_of};
ghost use Rattle.ak_http_heads.specs.Routes.{IsRoutes};

use ak_messages::Method;
use matchit::{InsertError, Router};
use std::alloc::Global;

/// The routes of requests, each to its method. It is refused only if memory runs out.
pub fn routes(alloc: Global) -> Result<Router<Method>, InsertError>
    ensures { IfOk result (λ routes. IsRoutes routes) }
{
    let mut routes = Router::new(alloc);
    routes.insert("/sync/meta", Method::Meta)?;
    routes.insert("/sync/start", Method::Start)?;
    routes.insert("/sync/applyGraves", Method::ApplyGraves)?;
    routes.insert("/sync/applyChanges", Method::ApplyChanges)?;
    routes.insert("/sync/chunk", Method::Chunk)?;
    routes.insert("/sync/applyChunk", Method::ApplyChunk)?;
    routes.insert("/sync/sanityCheck2", Method::SanityCheck2)?;
    routes.insert("/sync/finish", Method::Finish)?;
    routes.insert("/sync/upload", Method::Upload)?;
    routes.insert("/sync/download", Method::Download)?;
    Ok(routes)
}

/// The method that a whole target names.
pub fn route_of(routes: &Router<Method>, target: &str) -> Option<Method>
    requires { IsRoutes routes.now }
    ensures { result ≡ route_of target.now }
{
    match routes.at(target) {
        Ok(found) => Some(*found.value),
        Err(_) => None,
    }
}
